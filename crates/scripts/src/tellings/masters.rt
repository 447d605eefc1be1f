// The master's answers.
// put_ functions and no Display, as tellings.rt says.
ghost use Rattle.std.specs.Prelude.{◌≡◌, ◌++◌};
ghost use Rattle.laws.specs.Text.{codes};
ghost use Rattle.records.specs.Answers.{answer_of};
ghost use Rattle.master.specs.Answers.{which_of, ground_of, why_of, told_of};
ghost use Rattle.text.specs.Amounts.{count_said};
ghost use Rattle.text.specs.Putting.{puts};
ghost use Rattle.scripts.specs.Tellings.Masters.{which_text, answer_text, ground_text, given_up_text, why_text, told_text};

use crate::printing::put_behind;
use crate::tellings::{Bytes, InWords};
use master::answers::{Answer, Cause, Reason, Sending};
use records::answers::{Numbered, Reading};
use records::refusals::Refusal;
use text::amounts::put_count;
use text::items::{put_record, put_refusal};
use text::putting::put_text;

// Which sending it is.
fn sending_word(sending: Sending) -> &'static [u8]
    ensures { result.now ≡ which_text (which_of sending) }
{
    match sending {
        Sending::Offered => b"sent",
        Sending::Again => b"sent again",
        Sending::Poll => b"polled",
    }
}

// A word, the sending's count, and something behind a comma.
fn put_counted<W: InWords>(out: &mut [u8], at: usize, word: &[u8], count: u8, what: W) -> usize
    ensures { (result, out.new) ≡ puts (word.now ++ (count_said count ++ (codes ", " ++ W.words what))) at out.old }
{
    let a = put_text(out, at, word);
    let b = put_count(out, a, count);
    put_behind(out, b, b", ", what)
}

// What an answer of another kind reads as: its record, or its refusal.
// captures and cases print a reading in other words and with other parts: one function for all would take each of them as a parameter.
impl InWords for Reading {
    ghost words = { λ reading. answer_text (answer_of reading) };

    fn put(self, out: &mut [u8], at: usize) -> usize {
        match self {
            Ok(Numbered { rec, .. }) => put_record(out, at, rec),
            Err(r) => put_refusal(out, at, r),
        }
    }
}

fn cause_word(cause: Cause) -> &'static [u8]
    ensures { result.now ≡ ground_text (ground_of cause) }
{
    match cause {
        Cause::Silence => b"silence",
        Cause::Rejected => b"rejected",
    }
}

// Cause and count are the two fields of Answer::GivenUp, which the match below takes apart.
fn put_given_up(out: &mut [u8], at: usize, cause: Cause, count: u8) -> usize
    ensures { (result, out.new) ≡ puts (given_up_text (ground_of cause) count) at out.old }
{
    let a = put_text(out, at, b"given up, ");
    let b = put_text(out, a, cause_word(cause));
    put_count(out, b, count)
}

impl InWords for Reason {
    ghost words = { λ reason. why_text (why_of reason) };

    fn put(self, out: &mut [u8], at: usize) -> usize {
        match self {
            Reason::Free => put_text(out, at, b"free"),
            Reason::RunOut => put_text(out, at, b"T2 run out"),
            Reason::Refused(r) => put_refusal(out, at, r),
            Reason::OtherNumber => put_text(out, at, b"other number"),
        }
    }
}

// What a call did.
#[tactic(auto, unfolding(crate::specs::Tellings::Masters::sent_text, crate::specs::Tellings::Masters::answered_text, crate::specs::Tellings::Masters::other_kind_text, crate::specs::Tellings::Masters::ignored_text))]
pub fn put_answer(out: &mut [u8], at: usize, answer: Result<Answer, Refusal>) -> usize
    ensures { (result, out.new) ≡ puts (told_text (told_of answer)) at out.old }
{
    match answer {
        Err(r) => put_refusal(out, at, r),
        Ok(Answer::Nothing) => put_text(out, at, b"nothing"),
        Ok(
            Answer::Sent {
                sending,
                count,
                bytes,
            },
        ) => put_counted(out, at, sending_word(sending), count, Bytes(bytes)),
        Ok(Answer::Answered { rec, count }) => put_counted(out, at, b"answered", count, rec),
        Ok(Answer::OtherKind { reading, count }) => put_counted(
            out,
            at,
            b"another kind",
            count,
            reading,
        ),
        Ok(Answer::GivenUp { cause, count }) => put_given_up(out, at, cause, count),
        Ok(Answer::Ignored(reason)) => put_behind(out, at, b"ignored, ", reason),
    }
}

impl InWords for Result<Answer, Refusal> {
    ghost words = { λ answer. told_text (told_of answer) };

    fn put(self, out: &mut [u8], at: usize) -> usize {
        put_answer(out, at, self)
    }
}
