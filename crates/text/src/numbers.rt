// Numbers in decimal, put and parsed.
ghost use Rattle.std.specs.Prelude.{◌≡◌, ◌+◌, ◌-◌, ◌*◌, ◌%◌, ◌^◌};
ghost use Rattle.text.specs.Putting.{puts};
ghost use Rattle.text.specs.Numbers.{decimal_text, number_said};

use crate::putting::put_byte;
use std::num::wrapping_add_u64;

// The last digit of a number, as a character.
fn digit(n: u64) -> u8
    ensures { result ≡ 48 + n % 10 }
{
    b'0' + (n % 10) as u8
}

// A number without leading zeros: what stands before its last digit, and then that.
// No Display, as putting says. By recursion: the last digit is found first and put last.
pub fn put_number(out: &mut [u8], at: usize, n: u64) -> usize
    ensures { (result, out.new) ≡ puts (decimal_text n) at out.old }
{
    if n < 10 {
        return put_byte(out, at, digit(n));
    }
    let a = put_number(out, at, n / 10);
    put_byte(out, a, digit(n))
}

// What a digit says.
// No to_digit: any byte has a value here, as number_said has it.
fn digit_value(b: u8) -> u64
    ensures { result ≡ (b - 48) % 10 }
{
    if b < b'0' {
        return 0;
    }
    ((b - b'0') % 10) as u64
}

// A number with one digit more behind it.
// values::numbers has this and digit of 32 bits and two bases, where nothing wraps.
fn with_digit(n: u64, b: u8) -> u64
    ensures { result ≡ (n * 10 + (b - 48) % 10) % 2 ^ 64 }
{
    let two = wrapping_add_u64(n, n);
    let four = wrapping_add_u64(two, two);
    let eight = wrapping_add_u64(four, four);
    wrapping_add_u64(wrapping_add_u64(eight, two), digit_value(b))
}

// The number that decimal digits say, of 64 bits.
// No FromStr: any bytes say a number, which wraps.
#[tactic(auto, using(crate::proofs::Parsed::number_is))]
pub fn number(s: &[u8]) -> u64
    ensures { result ≡ number_said s.now }
{
    s.iter().fold(0, |n, b| with_digit(n, *b))
}
