// The master's state with one of its numbers as a row says, which may be out of its range.
ghost use Rattle.std.specs.Prelude.{◌≡◌};
ghost use Rattle.scripts.specs.Masters.Altering.{altered_of};

use crate::masters::calls::Field;
use clock::counters::ToSend;
use master::state::Master;

// A match on the field, as the desk's calls.rt says.
pub(crate) fn altered(m: Master, field: Field, value: u8) -> Master
    ensures { result ≡ altered_of m field value }
{
    match field {
        Field::Line => Master { line: value, ..m },
        Field::Number => Master {
            number: ToSend(value),
            ..m
        },
        Field::Count => Master { count: value, ..m },
        Field::Operation => Master {
            operation: value != 0,
            ..m
        },
    }
}
