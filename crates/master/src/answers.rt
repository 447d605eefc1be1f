// What the master's calls answer (rules M8, M10 to M16).
use records::answers::Reading;
use records::records::Record;
use records::refusals::Refusal;

// Which sending of a telegram it is: the first of an offered record, one again, or the first of a poll.
#[derive(Clone, Copy)]
pub enum Sending {
    Offered,
    Again,
    Poll,
}

// Why a telegram was given up: T2 ran out behind the third sending, or N with 1 or 2 answered it.
#[derive(Clone, Copy)]
pub enum Cause {
    Silence,
    Rejected,
}

// Why a hearing was ignored.
// Refused is no Err: the frame is refused, and the call is done.
#[derive(Clone, Copy)]
pub enum Reason {
    Free,
    RunOut,
    Refused(Refusal),
    OtherNumber,
}

// What a call did, where it does not refuse. A count is the sending count, 1 to 3.
#[derive(Clone, Copy)]
pub enum Answer {
    Nothing,
    Sent {
        sending: Sending,
        count: u8,
        bytes: usize,
    },
    Answered {
        rec: Record,
        count: u8,
    },
    // An answer of another kind, with what it reads as.
    OtherKind {
        reading: Reading,
        count: u8,
    },
    GivenUp {
        cause: Cause,
        count: u8,
    },
    Ignored(Reason),
}
