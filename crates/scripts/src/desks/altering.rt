// The desk's state with one of its numbers as a row says, which may be out of its range.
ghost use Rattle.std.specs.Prelude.{◌≡◌};
ghost use Rattle.scripts.specs.Desks.Altering.{altered_of};

use crate::desks::calls::Field;
use clock::counters::LastTaken;
use desk::state::Desk;

// A match on the field, as calls.rt says. A number that is too wide wraps, and u8::try_from would refuse it.
pub(crate) fn altered(d: Desk, field: Field, value: u32) -> Desk
    ensures { result ≡ altered_of d field value }
{
    let small = (value % 256) as u8;
    match field {
        Field::Line => Desk { line: small, ..d },
        Field::Good => Desk {
            good: value != 0,
            ..d
        },
        Field::Last => Desk {
            last: LastTaken(small),
            ..d
        },
        Field::Kept => Desk {
            kept: value as usize,
            ..d
        },
        Field::Queued => Desk {
            queued: value as usize,
            ..d
        },
        Field::Key => Desk { key: small, ..d },
    }
}
