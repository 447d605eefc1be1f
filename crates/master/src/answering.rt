// What a heard frame is to a telegram of a type that was sent on a line with a number (rules M8 to M13).
ghost use Rattle.std.specs.Prelude.{◌≡◌};
ghost use Rattle.records.specs.Answers.{answer_of};
ghost use Rattle.master.specs.Answering.{judged_of, answered_by, taken_of, judge_of};

use crate::rules::{is_failure, permitted_answer};
use characters::slices::byte_at;
use clock::counters::{ToSend, number_in};
use reading::frame::frame_check;
use reading::reading::read;
use records::answers::{Numbered, Reading};
use records::records::{Record, type_of};
use records::refusals::Refusal;

// What a heard frame is.
// Refused is no Err: the frame is refused, and the call goes on. An enum and no closure: the clauses name it (judged_of).
#[derive(Clone, Copy)]
pub enum Verdict {
    // refused 1 to 7
    Refused(Refusal),
    // its number is another
    OtherNumber,
    // N with 1 or 2
    Failed,
    // a permitted answer
    Answered(Record),
    // an answer of another kind, with what it reads as
    OtherKind(Reading),
}

// A record that answers: a failed sending, a permitted answer, or an answer of another kind.
// line and sent, record and number stay apart, as the definitions take them (answered_by, taken_of, permitted_answer).
#[tactic(auto, unfolding(crate::specs::Answering::answered_by))]
fn on_record(line: u8, sent: u8, rec: Record, number: u8) -> Verdict
    ensures { judged_of result ≡ answered_by line sent rec number }
{
    if is_failure(rec) {
        return Verdict::Failed;
    }
    if permitted_answer(line, sent, type_of(rec)) {
        return Verdict::Answered(rec);
    }
    Verdict::OtherKind(Ok(Numbered { rec, number }))
}

// What a frame with the number that was sent reads as; contents refused 8 to 11 are an answer of another kind.
fn on_reading(line: u8, sent: u8, reading: Reading) -> Verdict
    ensures { judged_of result ≡ taken_of line sent (answer_of reading) }
{
    match reading {
        Ok(Numbered { rec, number }) => on_record(line, sent, rec, number),
        Err(_) => Verdict::OtherKind(reading),
    }
}

// A frame is ignored when refused 1 to 7, or when its number is another.
#[tactic(auto, unfolding(crate::specs::Answering::judge_of))]
pub(crate) fn judge(line: u8, number: ToSend, sent: u8, frame: &[u8]) -> Verdict
    ensures { judged_of result ≡ judge_of line number.0 sent frame.now }
{
    if let Err(refusal) = frame_check(frame) {
        return Verdict::Refused(refusal);
    }
    if number != ToSend(number_in(byte_at(frame, 4))) {
        return Verdict::OtherNumber;
    }
    on_reading(line, sent, read(line, frame))
}
