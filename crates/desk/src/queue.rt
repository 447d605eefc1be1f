// The queue of the desk (rules D8, D11, D15): its oldest record answers t and leaves it.
ghost use Rattle.std.specs.Prelude.{◌≡◌};
ghost use Rattle.desk.specs.Replying.{origin_of};
ghost use Rattle.desk.specs.Queue.{popped, taken_by, marked, restarted};

use crate::replying::Source;
use crate::state::Desk;
use crate::waiting::shift;
use clock::counters::LastTaken;

// The oldest queued record leaves the queue; the others move up.
fn pop(desk: Desk) -> Desk
    ensures { result ≡ popped desk }
{
    Desk {
        queued: desk.queued.saturating_sub(1),
        queue: shift(desk.queue),
        ..desk
    }
}

// The state behind the choice of an answer: the oldest record leaves where it was chosen.
fn without(desk: Desk, source: Source) -> Desk
    ensures { result ≡ taken_by desk (origin_of source) }
{
    match source {
        Source::Queue => pop(desk),
        _ => desk,
    }
}

// Line good, number kept as last taken, T1 restarts; the oldest record leaves the queue where it answers.
pub(crate) fn mark(desk: Desk, source: Source, number: u8, at: u32) -> Desk
    ensures { result ≡ restarted (marked (taken_by desk (origin_of source)) number) at }
{
    Desk {
        good: true,
        last: LastTaken(number),
        t1: at,
        ..without(desk, source)
    }
}
