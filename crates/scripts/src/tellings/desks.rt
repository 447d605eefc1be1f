// The desk's answers.
// put_ functions and no Display, as tellings.rt says.
ghost use Rattle.std.specs.Prelude.{◌≡◌};
ghost use Rattle.records.specs.Refusals.{refusal_of};
ghost use Rattle.desk.specs.Replying.{origin_of};
ghost use Rattle.desk.specs.Answers.{done_of};
ghost use Rattle.desk.specs.Heard.{told_of};
ghost use Rattle.text.specs.Putting.{puts};
ghost use Rattle.scripts.specs.Tellings.Desks.{done_text, noted_text, silent_text, fault_text, handling_text, answering_text, handled_text, told_text};

use crate::printing::{put_behind, put_either};
use crate::tellings::sources::put_source;
use crate::tellings::{Bytes, InWords};
use desk::answers::Outcome;
use desk::heard::Heard;
use desk::replying::Source;
use records::refusals::Refusal;
use text::items::put_refusal;
use text::putting::put_text;

// A call that hears nothing.
pub fn put_outcome(out: &mut [u8], at: usize, answer: Outcome) -> usize
    ensures { (result, out.new) ≡ puts (done_text (done_of answer)) at out.old }
{
    match answer {
        Ok(false) => put_text(out, at, b"done"),
        Ok(true) => put_text(out, at, b"line noted lost"),
        Err(r) => put_refusal(out, at, r),
    }
}

impl InWords for Outcome {
    ghost words = { λ answer. done_text (done_of answer) };

    fn put(self, out: &mut [u8], at: usize) -> usize {
        put_outcome(out, at, self)
    }
}

// Whether this call noted the line lost.
fn put_noted(out: &mut [u8], at: usize, lost: bool) -> usize
    ensures { (result, out.new) ≡ puts (noted_text lost) at out.old }
{
    put_either(out, at, lost, b"line noted lost, ", b"")
}

fn put_silent(out: &mut [u8], at: usize, lost: bool, refusal: Refusal) -> usize
    ensures { (result, out.new) ≡ puts (silent_text lost (refusal_of refusal)) at out.old }
{
    let a = put_noted(out, at, lost);
    put_behind(out, a, b"silent, ", refusal)
}

fn put_fault(out: &mut [u8], at: usize, lost: bool, n: usize) -> usize
    ensures { (result, out.new) ≡ puts (fault_text lost n) at out.old }
{
    let a = put_noted(out, at, lost);
    put_behind(out, a, b"fault, ", Bytes(n))
}

// A telegram is handled.
pub fn put_handling(out: &mut [u8], at: usize, lost: bool) -> usize
    ensures { (result, out.new) ≡ puts (handling_text lost) at out.old }
{
    let a = put_noted(out, at, lost);
    put_text(out, a, b"handled, ")
}

// Where the answer to it comes from, and how many bytes it has.
pub fn put_answering(out: &mut [u8], at: usize, s: Source, n: usize) -> usize
    ensures { (result, out.new) ≡ puts (answering_text (origin_of s) n) at out.old }
{
    let a = put_source(out, at, s);
    put_behind(out, a, b", ", Bytes(n))
}

fn put_handled(out: &mut [u8], at: usize, lost: bool, s: Source, n: usize) -> usize
    ensures { (result, out.new) ≡ puts (handled_text lost (origin_of s) n) at out.old }
{
    let a = put_handling(out, at, lost);
    put_answering(out, a, s, n)
}

// A call that hears.
#[tactic(auto, unfolding(crate::specs::Tellings::Desks::repeat_text))]
pub fn put_heard(out: &mut [u8], at: usize, answer: Result<Heard, Refusal>) -> usize
    ensures { (result, out.new) ≡ puts (told_text (told_of answer)) at out.old }
{
    match answer {
        Err(r) => put_refusal(out, at, r),
        Ok(Heard::Silent(lost, r)) => put_silent(out, at, lost, r),
        Ok(Heard::Fault(lost, n)) => put_fault(out, at, lost, n),
        Ok(Heard::Repeat(n)) => put_behind(out, at, b"repeat, ", Bytes(n)),
        Ok(Heard::Handled(lost, s, n)) => put_handled(out, at, lost, s, n),
    }
}

impl InWords for Result<Heard, Refusal> {
    ghost words = { λ answer. told_text (told_of answer) };

    fn put(self, out: &mut [u8], at: usize) -> usize {
        put_heard(out, at, self)
    }
}
