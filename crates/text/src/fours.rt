// A number of 32 bits as four bytes, the highest first (rules F5, Q1).
ghost use Rattle.std.specs.Prelude.{◌≡◌};
ghost use Rattle.text.specs.Putting.{puts};
ghost use Rattle.text.specs.Fours.{four_bytes, four_said};

use crate::putting::put_text;
use characters::slices::byte_at;

// Puts a number at a place, and answers the place behind it.
// No Display: bytes of a block or a log.
pub fn put_four(out: &mut [u8], at: usize, n: u32) -> usize
    ensures { (result, out.new) ≡ puts (four_bytes n) at out.old }
{
    let four = [
        (n / 16777216 % 256) as u8,
        (n / 65536 % 256) as u8,
        (n / 256 % 256) as u8,
        (n % 256) as u8,
    ];
    put_text(out, at, &four)
}

// The number that the first four bytes say, 0 for each that is not there.
#[tactic(auto, unfolding(crate::specs::Fours::four_said))]
pub fn four_said(s: &[u8]) -> u32
    ensures { result ≡ four_said s.now }
{
    let d = byte_at(s, 3);
    let c = byte_at(s, 2);
    let b = byte_at(s, 1);
    let a = byte_at(s, 0);
    (a as u32) * 16777216 + (b as u32) * 65536 + (c as u32) * 256 + (d as u32)
}
