// A turn of a listing: what was read is listed, and what the next turn needs is kept (rules P2, P3, P5, P10).
ghost use Rattle.std.specs.Prelude.{◌≡◌};
ghost use Rattle.records.specs.Answers.{outcome_of};
ghost use Rattle.captures.specs.Turn.{unnamed, carried_on, list_of};

use crate::lister::{Lister, Task};
use crate::part::{kept_from, list_part};
use characters::slices::part;
use pieces::line::bad_line;
use pieces::tails::keep_tail;
use pieces::wants::Wants;
use records::refusals::Refusal;
use text::putting::put_text;

// The state behind a turn, and how many bytes of the output are to be written, or its refusal.
// Named by its state, as desk::state::Step says.
#[derive(Clone, Copy)]
pub struct Step {
    pub lister: Lister,
    pub answer: Result<usize, Refusal>,
}

// No input, or another first byte: `no 15 0`, and nothing else.
#[tactic(auto, unfolding(crate::specs::Turn::unnamed))]
fn unnamed(lister: Lister, out: &mut [u8]) -> Step
    ensures { (result.lister, (outcome_of result.answer, out.new)) ≡ unnamed lister out.old }
{
    let filled = put_text(out, 0, &bad_line());
    Step {
        lister: lister.ended(),
        answer: Ok(filled),
    }
}

// Lists the first n bytes of the buffer from the state's place on; behind their telegrams the last bytes are kept in front.
// buf and n stay two, here and in list: there is no heap, and the buffer is the caller's.
// recordings has carry_on and list (replay) of its own state: what both share is in pieces.
fn carry_on(lister: Lister, line: u8, buf: &mut [u8], n: usize, out: &mut [u8]) -> Step
    ensures { (result.lister, (outcome_of result.answer, (buf.new, out.new))) ≡ carried_on lister line buf.old n out.old }
{
    let listed = list_part(Lister { line, ..lister }, part(buf, 0, n), out);
    if !listed.done {
        return Step {
            lister: Lister {
                line,
                held: n,
                next: listed.next,
                ordinal: listed.ordinal,
                wants: Wants::Again,
                ..lister
            },
            answer: Ok(listed.filled),
        };
    }
    let from = kept_from(listed.next, n);
    keep_tail(buf, from, n);
    Step {
        lister: Lister {
            line,
            held: n.saturating_sub(from),
            next: 0,
            ordinal: listed.ordinal,
            base: std::num::wrapping_add_u64(lister.base, from as u64),
            wants: Wants::Read,
        },
        answer: Ok(listed.filled),
    }
}

// A turn: got bytes were read behind those held, and lines are put from the front of the output.
pub fn list(lister: Lister, buf: &mut [u8], got: usize, out: &mut [u8]) -> Step
    ensures { (result.lister, (outcome_of result.answer, (buf.new, out.new))) ≡ list_of lister buf.old got out.old }
{
    if let Err(refusal) = lister.list_check(buf.len(), got, out.len()) {
        return Step {
            lister,
            answer: Err(refusal),
        };
    }
    let n = lister.held + got;
    match lister.task(got, part(buf, 0, n)) {
        Task::Lists(line) => carry_on(lister, line, buf, n, out),
        Task::Unnamed => unnamed(lister, out),
        Task::Over => Step {
            lister: lister.ended(),
            answer: Ok(0),
        },
    }
}
