// What the desk keeps for later answers: the places of its queue, and the length of its stored answer (rules D11, E10).
ghost use Rattle.std.specs.Prelude.{◌≡◌, take};
ghost use Rattle.laws.specs.Truth.{every};
ghost use Rattle.desk.specs.Waiting.{waiting_fits, kept_fits, shifted};

use crate::fitting::may_reply;
use characters::marks::{LONGEST, SHORTEST};
use records::records::Record;

// A record that waits in the queue.
#[derive(Clone, Copy)]
pub struct Waiting {
    pub rec: Record,
}

// What stands in a place of the queue before any record does.
pub(crate) const BLANK: Waiting = Waiting {
    rec: Record::Approved(0),
};

// Whether a stored answer's length is one: 0 while the line is lost, or 10 to 66.
// 0 is no stored answer, and no Option: docs/PROMISES.md has it as Waiting.kept_fits, and the desk's block stores it so.
#[tactic(auto, unfolding(crate::specs::Waiting::kept_fits))]
pub fn kept_fits(good: bool, kept: usize) -> bool
    ensures { result ≡ kept_fits good kept }
{
    if kept == 0 {
        !good
    } else {
        SHORTEST <= kept && kept <= LONGEST
    }
}

// Whether each of the first n queued records may answer t on a line.
// queue and n stay two: fixed memory with its count beside, as Desk has them. The queue is lent: a copy of it would lie on each caller's stack.
pub(crate) fn queue_fits(line: u8, queue: &[Waiting], n: usize) -> bool
    ensures { result ≡ every (waiting_fits line) (take n queue.now) }
{
    queue
        .iter()
        .take(n)
        .all(|waiting| may_reply(line, waiting.rec))
}

// The places of a queue without the oldest, each one nearer; the last stands twice.
pub fn shift(q: [Waiting; 8]) -> [Waiting; 8]
    ensures { result ≡ shifted q }
{
    let mut moved = q;
    moved.copy_within(1.., 0);
    moved
}
