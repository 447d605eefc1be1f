// The results of the desk's calls.
ghost use Rattle.std.specs.Prelude.{◌≡◌};
ghost use Rattle.desk.specs.Replying.{origin_of};
ghost use Rattle.desk.specs.Answers.{done_of};
ghost use Rattle.desk.specs.Heard.{told_of};
ghost use Rattle.in656.specs.Results.Desks.{done_result, handled_result, heard_result};

use crate::results::result::{In656Result, refuse, say};
use desk::answers::Outcome;
use desk::heard::Heard;
use desk::replying::Source;
use records::refusals::Refusal;

// Outcome. Outcomes and details are numbers of the C interface (include/in656.h).
pub const DONE: u32 = 1;

pub const SILENT: u32 = 2;

pub const FAULT: u32 = 3;

pub const REPEAT: u32 = 4;

pub const HANDLED: u32 = 5;

// Detail of a handled telegram.
pub const FROM_REQUEST: u32 = 1;

pub const FROM_QUEUE: u32 = 2;

pub const FROM_KEY: u32 = 3;

pub const FROM_PANEL: u32 = 4;

pub const FROM_CONTENTS: u32 = 5;

pub const FROM_DIRECTION: u32 = 6;

pub const FROM_NOTHING: u32 = 7;

// A call that hears nothing.
impl From<Outcome> for In656Result {
    ghost from_gives = { λ answer r. r ≡ done_result (done_of answer) };

    fn from(answer: Outcome) -> In656Result {
        match answer {
            Ok(lost) => say(DONE, 0).with_lost(lost),
            Err(refusal) => refuse(refusal),
        }
    }
}

// A handled telegram.
impl From<Source> for In656Result {
    ghost from_gives = { λ source r. r ≡ handled_result (origin_of source) };

    fn from(source: Source) -> In656Result {
        match source {
            Source::Requested => say(HANDLED, FROM_REQUEST),
            Source::Queue => say(HANDLED, FROM_QUEUE),
            Source::Key(_) => say(HANDLED, FROM_KEY),
            Source::Panel(_) => say(HANDLED, FROM_PANEL).with_record(),
            Source::Contents(refusal) => say(HANDLED, FROM_CONTENTS).with_contents(refusal),
            Source::NotMaster => say(HANDLED, FROM_DIRECTION),
            Source::NothingSet => say(HANDLED, FROM_NOTHING),
        }
    }
}

// A hearing.
impl From<Result<Heard, Refusal>> for In656Result {
    ghost from_gives = { λ answer r. r ≡ heard_result (told_of answer) };

    fn from(answer: Result<Heard, Refusal>) -> In656Result {
        match answer {
            Err(refusal) => refuse(refusal),
            Ok(Heard::Silent(lost, refusal)) => say(SILENT, 0)
                .with_contents(refusal)
                .with_lost(lost),
            Ok(Heard::Fault(lost, n)) => say(FAULT, 0).with_written(n).with_lost(lost),
            Ok(Heard::Repeat(n)) => say(REPEAT, 0).with_written(n),
            Ok(Heard::Handled(lost, source, n)) => {
                In656Result::from(source).with_written(n).with_lost(lost)
            }
        }
    }
}
