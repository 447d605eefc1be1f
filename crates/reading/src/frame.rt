// A telegram's frame: checks 1 to 7 (rules R1 to R7, B1 to B5), and what stands around the data field.
ghost use Rattle.std.specs.Prelude.{◌≡◌, [], ◌∷◌, ◌+◌, ◌-◌, ◌/◌, ◌%◌, ◌≤◌, length, drop};
ghost use Rattle.laws.specs.Text.{codes};
ghost use Rattle.laws.specs.Truth.{one_of};
ghost use Rattle.records.specs.Answers.{fault_of, first_fault};
ghost use Rattle.reading.specs.Frame.{is_two, frame_checks};

use characters::checksum::{checksum, hex};
use characters::marks::{CR, LF, LONGEST, SHORTEST};
use characters::slices::{byte_at, less, part};
use records::refusals::Refusal;

// Whether the two characters at a place are these. A character past the end is 0, as in the clause, so this is no == of two slices.
fn is_two(s: &[u8], at: usize, high: u8, low: u8) -> bool
    requires { at ≤ length s.now }
    ensures { result ≡ is_two s.now at (high ∷ low ∷ []) }
{
    byte_at(s, at) == high && byte_at(s, at + 1) == low
}

// The byte count of a telegram of n bytes, as two decimal digits: the high one,
pub fn count_high(n: usize) -> u8
    ensures { result ≡ 48 + (n - 2) / 10 % 10 }
{
    b'0' + (less(n, 2) / 10 % 10) as u8
}

// and the low one.
pub fn count_low(n: usize) -> u8
    ensures { result ≡ 48 + (n - 2) % 10 }
{
    b'0' + (less(n, 2) % 10) as u8
}

// Whether a character is a telegram's number.
fn is_number(b: u8) -> bool
    ensures { result ≡ one_of (codes "01") b }
{
    matches!(b, b'0' | b'1')
}

// Checks 5 to 7.
fn end_check(s: &[u8]) -> Result<(), Refusal>
    requires { 10 ≤ length s.now }
    ensures { fault_of result ≡ first_fault 5 (drop 4 (frame_checks s.now)) }
{
    let n = s.len();
    if byte_at(s, n - 1) != CR {
        return Err(Refusal::NoEnd(n - 1));
    }
    let sum = checksum(part(s, 1, n - 4));
    if !is_two(s, n - 3, hex(sum / 16), hex(sum)) {
        return Err(Refusal::Checksum(n - 3));
    }
    if !is_number(byte_at(s, 4)) {
        return Err(Refusal::Number);
    }
    Ok(())
}

// Checks 1 to 7.
pub fn frame_check(s: &[u8]) -> Result<(), Refusal>
    ensures { fault_of result ≡ first_fault 1 (frame_checks s.now) }
{
    let n = s.len();
    if n < SHORTEST {
        return Err(Refusal::Short);
    }
    if LONGEST < n {
        return Err(Refusal::Long);
    }
    if byte_at(s, 0) != LF {
        return Err(Refusal::NoStart);
    }
    if !is_two(s, 1, count_high(n), count_low(n)) {
        return Err(Refusal::Count);
    }
    end_check(s)
}
