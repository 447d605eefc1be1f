// The state of a replay between two turns, and what refuses a turn (rules Q9, Q14).
ghost use Rattle.std.specs.Prelude.{◌≡◌};
ghost use Rattle.records.specs.Answers.{fault_of};
ghost use Rattle.recordings.specs.Replay.State.{begun_on, started_on, turn_fault, wants_for};

use crate::replay::part::{ROW_ROOM, Stop};
use characters::marks::LONGEST;
use desk::state::Desk;
use forms::lines::is_line;
use logs::reader::HEAD;
use pieces::turns::Needs;
use pieces::wants::Wants;
use records::refusals::Refusal;

// Between two turns: the desk, the next record's ordinal, the offset of the first byte held, how many bytes are held in front of the buffer, and what it wants.
// The buffer is lent for each turn, so it does not stand in the state beside its count: fixed memory, no heap.
#[derive(Clone, Copy)]
pub struct Replayer {
    pub desk: Desk,
    pub ordinal: u64,
    pub base: u64,
    pub held: usize,
    pub wants: Wants,
}

// A state behind a start, and what refuses it.
// As turn::Step, with another answer.
#[derive(Clone, Copy)]
pub struct Started {
    pub replayer: Replayer,
    pub answer: Result<(), Refusal>,
}

// A fresh desk of the line, before the log's first byte.
pub(crate) fn begun(line: u8) -> Replayer
    ensures { result ≡ begun_on line }
{
    Replayer {
        desk: Desk::start(line).desk,
        ordinal: 1,
        base: 0,
        held: 0,
        wants: Wants::Read,
    }
}

// A start on a line; refused 15, with the blank desk of line 0, where there is no such line.
// The state stands beside the refusal, since started_on promises both (docs/PROMISES.md, replay::state::start).
#[tactic(auto, unfolding(crate::specs::Replay::State::started_on))]
pub fn start(line: u8) -> Started
    ensures { (result.replayer, fault_of result.answer) ≡ started_on line }
{
    let answer = if is_line(line) {
        Ok(())
    } else {
        Err(Refusal::State)
    };
    Started {
        replayer: begun(line),
        answer,
    }
}

// What refuses a turn: 15 where the desk is out of its ranges or the bytes held and got are not in the buffer, then 14 where there is no room for a row, or for
// a whole record.
pub(crate) fn turn_check(
    replayer: Replayer,
    len: usize,
    got: usize,
    room: usize,
) -> Result<(), Refusal>
    ensures { fault_of result ≡ turn_fault replayer len got room }
{
    let needs = Needs {
        fits: replayer.desk.in_ranges(),
        held: replayer.held,
        buffer: HEAD + LONGEST,
        output: ROW_ROOM,
    };
    needs.check(len, got, room)
}

// What a replay wants behind a part of its log.
// A function and no From: the name says that this is what the replay wants, and one place asks.
pub(crate) fn wants_for(stop: Stop) -> Wants
    ensures { result ≡ wants_for stop }
{
    match stop {
        Stop::Goes | Stop::Full => Wants::Again,
        Stop::Waits => Wants::Read,
        Stop::Over => Wants::End,
    }
}
