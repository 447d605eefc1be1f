// The results of the master's calls.
ghost use Rattle.std.specs.Prelude.{◌≡◌};
ghost use Rattle.records.specs.Answers.{answer_of};
ghost use Rattle.master.specs.Answers.{which_of, ground_of, why_of, told_of};
ghost use Rattle.in656.specs.Results.Masters.{sending_detail, cause_detail, ignored_result, other_result, told_result};

use crate::results::result::{In656Result, refuse, say};
use master::answers::{Answer, Cause, Reason, Sending};
use records::answers::Reading;
use records::refusals::Refusal;

// Outcome. Outcomes and details are numbers of the C interface (include/in656.h).
pub const NOTHING: u32 = 1;

pub const SENT: u32 = 2;

pub const ANSWERED: u32 = 3;

pub const OTHER_KIND: u32 = 4;

pub const GIVEN_UP: u32 = 5;

pub const IGNORED: u32 = 6;

// Detail of an ignored frame.
pub const IGNORED_FREE: u32 = 1;

pub const IGNORED_RUN_OUT: u32 = 2;

pub const IGNORED_CONTENTS: u32 = 3;

pub const IGNORED_OTHER_NUMBER: u32 = 4;

// Detail of a sending.
// No From: the sending is a type of another crate, and the numbers are the header's.
fn sending_detail(sending: Sending) -> u32
    ensures { result ≡ sending_detail (which_of sending) }
{
    match sending {
        Sending::Offered => 1,
        Sending::Again => 2,
        Sending::Poll => 3,
    }
}

// Detail of a giving up.
// No From: the cause is a type of another crate, and the numbers are the header's.
fn cause_detail(cause: Cause) -> u32
    ensures { result ≡ cause_detail (ground_of cause) }
{
    match cause {
        Cause::Silence => 1,
        Cause::Rejected => 2,
    }
}

// An ignored frame, with why.
impl From<Reason> for In656Result {
    ghost from_gives = { λ why r. r ≡ ignored_result (why_of why) };

    fn from(why: Reason) -> In656Result {
        match why {
            Reason::Free => say(IGNORED, IGNORED_FREE),
            Reason::RunOut => say(IGNORED, IGNORED_RUN_OUT),
            Reason::Refused(refusal) => say(IGNORED, IGNORED_CONTENTS).with_contents(refusal),
            Reason::OtherNumber => say(IGNORED, IGNORED_OTHER_NUMBER),
        }
    }
}

// An answer of another kind. It is no From, since a reading alone has another result.
fn of_other(reading: Reading) -> In656Result
    ensures { result ≡ other_result (answer_of reading) }
{
    let r = say(OTHER_KIND, 0);
    match reading {
        Ok(_) => r.with_record(),
        Err(refusal) => r.with_contents(refusal),
    }
}

// What a call did.
impl From<Result<Answer, Refusal>> for In656Result {
    ghost from_gives = { λ answer r. r ≡ told_result (told_of answer) };

    fn from(answer: Result<Answer, Refusal>) -> In656Result {
        match answer {
            Err(refusal) => refuse(refusal),
            Ok(Answer::Nothing) => say(NOTHING, 0),
            Ok(
                Answer::Sent {
                    sending,
                    count,
                    bytes,
                },
            ) => say(SENT, sending_detail(sending))
                .with_written(bytes)
                .with_count(count),
            Ok(Answer::Answered { count, .. }) => say(ANSWERED, 0).with_record().with_count(count),
            Ok(Answer::OtherKind { reading, count }) => of_other(reading).with_count(count),
            Ok(Answer::GivenUp { cause, count }) => {
                say(GIVEN_UP, cause_detail(cause)).with_count(count)
            }
            Ok(Answer::Ignored(why)) => In656Result::from(why),
        }
    }
}
