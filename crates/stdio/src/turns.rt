// A program's work over an input of any length, turn after turn.
// rt stands apart, as lib.rt says.
ghost use Rattle.std.specs.Prelude.{◌≡◌, Option, Some, None, Err};
ghost use Rattle.records.specs.declared.refusals.Refusal.{Refusal};
ghost use Rattle.pieces.specs.declared.wants.Wants.TheVariants.{End};

use crate::input::read_more;
use crate::output::{complain, write_out};
use pieces::wants::Wants;
use records::refusals::Refusal;

// What a program calls its reading and its writing where they fail, and what it says where a turn is refused.
#[derive(Clone, Copy)]
pub struct Words<'a> {
    pub reading: &'a [u8],
    pub writing: &'a [u8],
    pub refused: &'a [u8],
}

// Work that takes its input in pieces.
pub trait Work {
    // Whether all is said.
    ghost is_over: { Self → Type 0 };

    // What the next turn wants.
    fn wants(&self) -> Wants
        ensures { result ≡ End → is_over self.now };

    // How many bytes are held in front of the buffer.
    fn held(&self) -> usize;

    // A turn: so many bytes were read behind those held. How many bytes of the output are to be written, or its refusal.
    fn turn(&mut self, buf: &mut [u8], got: usize, out: &mut [u8]) -> Result<usize, Refusal>;
}

// Writes what a turn has put; None where the turn is refused or the bytes cannot be written.
pub fn written(
    rt: HostRuntime,
    answer: Result<usize, Refusal>,
    out: &[u8],
    words: Words,
) -> Option<()>
    ensures { (x : Refusal) → answer ≡ Err x → result ≡ None }
{
    let Ok(filled) = answer else {
        complain(rt, words.refused);
        return None;
    };
    write_out(rt, out, filled, words.writing)
}

// Turn after turn until all is said, each with bytes read behind those held where it wants them; None where it has to end before.
// A proved loop has to end, so it has a last turn, which no run comes to.
pub fn run<W: Work>(
    rt: HostRuntime,
    work: &mut W,
    buf: &mut [u8],
    out: &mut [u8],
    words: Words,
) -> Option<()>
    ensures { result ≡ Some tt → W.is_over work.new }
{
    for _ in 0..u64::MAX {
        let got = match work.wants() {
            Wants::Read => read_more(rt, buf, work.held(), words.reading)?,
            Wants::Again => 0,
            Wants::End => return Some(()),
        };
        let answer = work.turn(buf, got, out);
        written(rt, answer, out, words)?;
    }
    None
}
