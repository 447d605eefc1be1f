// When an end's next tick does something.
ghost use Rattle.std.specs.Prelude.{◌≡◌};
ghost use Rattle.clock.specs.Due.{when_of};
ghost use Rattle.in656.specs.Due.{due_result, desk_due, master_due};

use crate::results::result::{In656Result, done, refuse, say};
use clock::due::Due;

// Outcome: the tick after so many milliseconds does something. Its number is the C interface's (include/in656.h).
const AFTER: u32 = 1;

// What is due.
impl From<Due> for In656Result {
    ghost from_gives = { λ due r. r ≡ due_result (when_of due) };

    fn from(due: Due) -> In656Result {
        match due {
            Err(refusal) => refuse(refusal),
            Ok(None) => done(),
            Ok(Some(left)) => say(AFTER, left),
        }
    }
}

#[unsafe(no_mangle)]
pub extern "C" fn in656_desk_due(state: &[u8], time: u32) -> In656Result
    ensures { result ≡ desk_due state.now time }
{
    In656Result::from(blocks::desks::load(state).due(time))
}

#[unsafe(no_mangle)]
pub extern "C" fn in656_master_due(state: &[u8], time: u32) -> In656Result
    ensures { result ≡ master_due state.now time }
{
    In656Result::from(blocks::masters::load(state).due(time))
}
