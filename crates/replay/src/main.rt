// The replay program (rules Q9 to Q14): runs a fresh desk of a line over the log of standard input. It reads, calls a turn of the replay, and writes.
// rt stands apart from the buffers, as stdio says; there is no heap, so what a read fills is the front of an array.
#![tactic(auto)]

ghost use Rattle.std.specs.Prelude.{◌≡◌};
ghost use Rattle.pieces.specs.declared.wants.Wants.TheVariants.{End};

use characters::slices::part;
use pieces::wants::Wants;
use recordings::replay::state::Replayer;
use recordings::replay::turn::{open, replay};
use records::refusals::Refusal;
use stdio::input::{called_alone, read_more};
use stdio::turns::{Words, Work, run, written};

#[derive(Clone, Copy)]
struct Replaying(Replayer);

impl Work for Replaying {
    ghost is_over = { λ s. s.0.wants ≡ End };

    fn wants(&self) -> Wants {
        self.0.wants
    }

    fn held(&self) -> usize {
        self.0.held
    }

    fn turn(&mut self, buf: &mut [u8], got: usize, out: &mut [u8]) -> Result<usize, Refusal> {
        let step = replay(self.0, buf, got, out);
        self.0 = step.replayer;
        step.answer
    }
}

// The first byte is read alone, since it names the line; the log is behind it.
fn replay_input(rt: HostRuntime, buf: &mut [u8], out: &mut [u8], words: Words) -> Option<()> {
    let mut first = [0u8; 1];
    let got = read_more(rt, &mut first, 0, words.reading)?;
    let step = open(part(&first, 0, got), out);
    written(rt, step.answer, out, words)?;
    run(rt, &mut Replaying(step.replayer), buf, out, words)
}

fn main(rt: HostRuntime) {
    if !called_alone(rt, b"usage: replay < LOG\n") {
        return;
    }
    let mut buf = [0u8; 131072];
    let mut out = [0u8; 65536];
    let words = Words {
        reading: b"replay: reading",
        writing: b"replay: writing",
        refused: b"replay: refused\n",
    };
    replay_input(rt, &mut buf, &mut out, words);
}
