// Case h with every byte replaced by every value, and inputs of many lengths: what the rules give is written here by hand.
// Numbers of refusals, the set and the checksum stand here a second time on purpose, so that the library is not tested by itself.
// index and b stay apart: each function looks at one or matches both, and a struct of them would be opened in each.
use characters::slices::part;
use reading::reading::read;
use records::answers::Reading;
use records::refusals::{number_of, place_of};

// Case h: LF, 21, B, 0, L125 %090 H120 R88, EC, CR.
const H: [u8; 23] = *b"\n21B0L125%090H120R88EC\r";

// A refusal's number and its place.
#[derive(Clone, Copy, PartialEq)]
struct Due(u8, usize);

// With the checksum as it was, another byte is refused by the first check that looks at it.
fn due_at(index: usize) -> Due {
    match index {
        0 => Due(3, 0),
        1..=2 => Due(4, 1),
        22 => Due(5, 22),
        _ => Due(6, 20),
    }
}

// The set, by the ranges of 001 section 5.3.1.
fn of_set(b: u8) -> bool {
    matches!(
        b,
        b' ' | b'%' | b'(' | b')' | b'+' | b'-' | b':' | b'0'..=b'9' | b'A'..=b']' | b'a'..=b'}'
    )
}

// The letter of the packet that a byte of the data field stands in.
fn letter_before(index: usize) -> usize {
    match index {
        5..=8 => 5,
        9..=12 => 9,
        13..=16 => 13,
        _ => 17,
    }
}

// A byte that is not case h's in the data field: 9 outside the set, 10 for a letter, 11 for a value; a digit is no fault but in R.
fn due_in_field(index: usize, b: u8) -> Option<Due> {
    if !of_set(b) {
        return Some(Due(9, index));
    }
    let letter = letter_before(index);
    if index == letter {
        return Some(Due(10, index));
    }
    if letter != 17 && b.is_ascii_digit() {
        return None;
    }
    Some(Due(11, letter))
}

// With the checksum made right again.
fn due_when_right(index: usize, b: u8) -> Option<Due> {
    match (index, b) {
        // the other types of line 1 have data fields of another length
        (3, b'A' | b'F' | b'G' | b'N' | b'c' | b'r' | b't') => Some(Due(10, 5)),
        (3, _) => Some(Due(8, 3)),
        (4, b'1') => None,
        (4, _) => Some(Due(7, 4)),
        _ => due_in_field(index, b),
    }
}

fn hex_digit(n: u8) -> u8 {
    let d = n % 16;
    if d < 10 { b'0' + d } else { b'A' + (d - 10) }
}

// The two characters that make the sum zero.
fn with_sum(mut t: [u8; 23]) -> [u8; 23] {
    let sum = t[1..20].iter().fold(0u8, |sum, b| sum.wrapping_add(*b));
    let check = sum.wrapping_neg();
    t[20] = hex_digit(check / 16);
    t[21] = hex_digit(check);
    t
}

// Whether a reading is what is due: a refusal, or none.
fn is_due(reading: Reading, due: Option<Due>) -> bool {
    reading.err().map(|x| Due(number_of(x), place_of(x))) == due
}

// Case h with one byte replaced.
fn replaced(index: usize, b: u8) -> [u8; 23] {
    let mut t = H;
    if let Some(place) = t.get_mut(index) {
        *place = b;
    }
    t
}

fn original(index: usize) -> u8 {
    H.get(index).copied().unwrap_or(0)
}

// Whether case h with one byte replaced reads as is due.
pub(crate) fn replaced_as_due(index: usize, b: u8) -> bool {
    let due = (b != original(index)).then_some(due_at(index));
    is_due(read(1, &replaced(index, b)), due)
}

// The same with the checksum made right again.
pub(crate) fn righted_as_due(index: usize, b: u8) -> bool {
    let due = if b == original(index) {
        None
    } else {
        due_when_right(index, b)
    };
    is_due(read(1, &with_sum(replaced(index, b))), due)
}

// How many of the 256 values of a byte read as is due.
pub(crate) fn all<F: Fn(usize, u8) -> bool>(index: usize, as_due: &F) -> u64
    requires { F.IsAlwaysCallable as_due.now }
{
    (0..=255u8).filter(|b| as_due(index, *b)).count() as u64
}

// Bytes LF 0 0 .. of many lengths: under 10 is 1, over 66 is 2, any other has a wrong count.
fn due_of_length(n: usize) -> Due {
    if n < 10 {
        return Due(1, 0);
    }
    if 66 < n {
        return Due(2, 0);
    }
    Due(4, 1)
}

fn of_length(long: &[u8], n: usize) -> bool {
    is_due(read(2, part(long, 0, n)), Some(due_of_length(n)))
}

// How many of the lengths 0 to 4095 read as is due.
pub(crate) fn lengths() -> u64 {
    let mut long = [b'0'; 4096];
    long[0] = b'\n';
    (0..4096usize).filter(|n| of_length(&long, *n)).count() as u64
}
