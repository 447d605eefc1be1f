// How many rows there are, and how many of them differ.
ghost use Rattle.std.specs.Prelude.{◌≡◌};
ghost use Rattle.text.specs.Putting.{puts};
ghost use Rattle.text.specs.Fields.{same_text};
ghost use Rattle.text.specs.Tally.{no_rows, counted_of, tally_text};

use crate::fields::same;
use crate::numbers::put_number;
use crate::putting::put_text;
use std::num::wrapping_add_u64;

#[derive(Clone, Copy)]
pub struct Tally {
    pub rows: u64,
    pub differ: u64,
}

impl Tally {
    // Before any row.
    pub fn start() -> Self
        ensures { result ≡ no_rows }
    {
        Tally { rows: 0, differ: 0 }
    }

    // One row more.
    pub fn counted(self, expected: &[u8], came: &[u8]) -> Tally
        ensures { result ≡ counted_of self (same_text expected.now came.now) }
    {
        let rows = wrapping_add_u64(self.rows, 1);
        if same(expected, came) {
            return Tally {
                rows,
                differ: self.differ,
            };
        }
        Tally {
            rows,
            differ: wrapping_add_u64(self.differ, 1),
        }
    }
}

// The row that counts the others.
// No Display, as putting says.
pub fn put_tally(out: &mut [u8], at: usize, tally: Tally) -> usize
    ensures { (result, out.new) ≡ puts (tally_text tally) at out.old }
{
    let a = put_number(out, at, tally.rows);
    let b = put_text(out, a, b" rows, ");
    let c = put_number(out, b, tally.differ);
    put_text(out, c, b" differ\n")
}
