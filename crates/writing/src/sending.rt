// Sending (rules W6, E6): what both ends do with a record that they may send.
ghost use Rattle.std.specs.Prelude.{◌≡◌};
ghost use Rattle.writing.specs.Writing.{send_of};

use crate::writing::write;
use records::records::Record;

// Writes a record's telegram; the number of its bytes, 0 where writing refuses: a number and no Option, as the clause's send_of has it.
pub fn send(line: u8, rec: Record, number: u8, out: &mut [u8]) -> usize
    ensures { (result, out.new) ≡ send_of line rec number out.old }
{
    write(line, rec, number, out).unwrap_or(0)
}
