// The results of reading a log, and the numbers of its marks.
ghost use Rattle.std.specs.Prelude.{◌≡◌};
ghost use Rattle.logs.specs.Reader.{next_of};
ghost use Rattle.in656.specs.Results.Logs.{mark_number, found_result};

use crate::results::result::{In656Result, done, refuse, say};
use logs::marks::Mark;
use logs::reader::Next;

// Outcome of a reading, and the mark that a writing takes: numbers of the C interface (in656_log_write).
pub const MASTER: u32 = 1;

pub const SLAVE: u32 = 2;

pub const HIT: u32 = 3;

// The number of a mark.
// No From: the mark is a type of another crate, and the numbers are the header's.
fn mark_number(mark: Mark) -> u32
    ensures { result ≡ mark_number mark }
{
    match mark {
        Mark::Master => MASTER,
        Mark::Slave => SLAVE,
        Mark::Hit => HIT,
    }
}

// What stands at a place of a log.
impl From<Next> for In656Result {
    ghost from_gives = { λ next r. r ≡ found_result (next_of next) };

    fn from(next: Next) -> In656Result {
        match next {
            Ok(Some(entry)) => say(mark_number(entry.mark), entry.time)
                .with_written(entry.end.saturating_sub(entry.start))
                .with_place(entry.start),
            Ok(None) => done(),
            Err(refusal) => refuse(refusal),
        }
    }
}
