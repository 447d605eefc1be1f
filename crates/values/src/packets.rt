// What each packet permits (rules V1 to V17): a match over the packet letter, with the value's bytes beside it.
ghost use Rattle.std.specs.Prelude.{◌≡◌};
ghost use Rattle.values.specs.Packets.{permits, digit, in_channel, in_position, operational, in_mode, in_watch, in_effect, in_request, in_approval};

use characters::characters::in_set;
use forms::lines::{is_key, line_of};
use forms::table::data_type;

fn is_digit(b: u8) -> bool
    ensures { result ≡ digit b }
{
    b.is_ascii_digit()
}

// Whether the byte at a place of a value is permitted: by line, telegram type and packet letter.
// Letters that follow each other in the alphabet, as C and D, stand in different arms, since one arm would test them as a range.
// A match and no table of tests: it is the paper's table of packets. Line, type and letter stay arguments, as the definition takes them.
#[tactic(auto, unfolding(crate::specs::Packets::permits))]
pub(crate) fn permits_byte(line: u8, kind: u8, letter: u8, at: usize, b: u8) -> bool
    ensures { result ≡ permits line kind letter at b }
{
    match letter {
        b'L' | b'%' | b'H' | b'E' => is_digit(b),
        b'S' | b'D' => is_digit(b),
        b'C' | b'T' | b'R' => is_digit(b),
        b'F' => in_channel(at, b),
        b'P' => in_position(at, b),
        b'm' => matches!(b, b'S' | b'T'),
        b'U' => matches!(b, b'+' | b'-'),
        b'N' => matches!(b, b'1' | b'2' | b'A'),
        b'M' => in_mode(kind, at, b),
        b'V' => in_watch(kind, at, b),
        b'W' => in_effect(b),
        b'X' => in_effect(b),
        b'Y' => matches!(b, b'0'..=b'9' | b'A'..=b'V'),
        b'Z' => matches!(b, b'0'..=b'7'),
        b'B' => in_request(line, kind, b),
        b'A' => in_approval(line, b),
        _ => false,
    }
}

// F is the letter C, then digits.
// This, in_position, in_mode and in_watch test the first byte and then the others: a function of two tests is no shorter than each.
fn in_channel(at: usize, b: u8) -> bool
    ensures { result ≡ in_channel at b }
{
    if at == 0 { b == b'C' } else { is_digit(b) }
}

// P is a digit 0 to 7, then digits.
fn in_position(at: usize, b: u8) -> bool
    ensures { result ≡ in_position at b }
{
    if at == 0 {
        matches!(b, b'0'..=b'7')
    } else {
        is_digit(b)
    }
}

// An operational form: A B C D, in telegram 1 also F.
// No matches!, since F goes by the telegram.
fn is_operational(kind: u8, b: u8) -> bool
    ensures { result ≡ operational kind b }
{
    match b {
        b'A'..=b'D' => true,
        b'F' => kind == b'1',
        _ => false,
    }
}

// M is a colon, then an operational form.
fn in_mode(kind: u8, at: usize, b: u8) -> bool
    ensures { result ≡ in_mode kind at b }
{
    if at == 0 {
        b == b':'
    } else {
        is_operational(kind, b)
    }
}

// V is a colon, then operational forms or spaces.
fn in_watch(kind: u8, at: usize, b: u8) -> bool
    ensures { result ≡ in_watch kind at b }
{
    if at == 0 {
        b == b':'
    } else {
        b == b' ' || is_operational(kind, b)
    }
}

// W and X, the two effects, are each F, 1 or 6.
fn in_effect(b: u8) -> bool
    ensures { result ≡ in_effect b }
{
    matches!(b, b'F' | b'1' | b'6')
}

// B is in r the wanted type, in t any character of the set.
fn in_request(line: u8, kind: u8, b: u8) -> bool
    ensures { result ≡ in_request line kind b }
{
    if kind == b'r' {
        b == data_type(line)
    } else {
        in_set(b)
    }
}

// A is on a line where it carries one a key position, else any character of the set.
fn in_approval(line: u8, b: u8) -> bool
    ensures { result ≡ in_approval line b }
{
    if line_of(line).keyed {
        is_key(b)
    } else {
        in_set(b)
    }
}
