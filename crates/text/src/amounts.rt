// Amounts in rows: how many bytes, how many sendings.
ghost use Rattle.std.specs.Prelude.{◌≡◌};
ghost use Rattle.text.specs.Putting.{puts};
ghost use Rattle.text.specs.Amounts.{bytes_text, count_said};

use crate::numbers::put_number;
use crate::putting::put_text;

// How many bytes were sent.
// No Display, as putting says. This and put_count have a word behind and a word before: one function of both is no shorter.
pub fn put_bytes(out: &mut [u8], at: usize, n: usize) -> usize
    ensures { (result, out.new) ≡ puts (bytes_text n) at out.old }
{
    let a = put_number(out, at, n as u64);
    put_text(out, a, b" bytes")
}

// A sending count.
pub fn put_count(out: &mut [u8], at: usize, n: u8) -> usize
    ensures { (result, out.new) ≡ puts (count_said n) at out.old }
{
    let a = put_text(out, at, b", count ");
    put_number(out, a, n as u64)
}
