// Frames as rows write them: < for LF, > for CR, =HH for the byte HH hex (docs/SCENES.md).
ghost use Rattle.std.specs.Prelude.{◌≡◌, drop};
ghost use Rattle.text.specs.Putting.{puts};
ghost use Rattle.text.specs.Frames.{end_meant, shown_byte, byte_meant, passed, meant_by, shown_as};

use crate::hex::hex_value;
use crate::putting::put_byte;
use characters::slices::byte_at;

// The byte that a character means where none stands for hex digits.
#[tactic(auto, unfolding(crate::specs::Frames::end_meant))]
pub fn end_meant(b: u8) -> u8
    ensures { result ≡ end_meant b }
{
    match b {
        b'<' => b'\n',
        b'>' => b'\r',
        _ => b,
    }
}

// The byte that a text begins with; digits that are missing are 0.
#[tactic(auto, unfolding(crate::specs::Frames::byte_meant))]
fn byte_meant(text: &[u8]) -> u8
    ensures { result ≡ byte_meant text.now }
{
    match byte_at(text, 0) {
        b'=' => hex_value(byte_at(text, 1), byte_at(text, 2)),
        b => end_meant(b),
    }
}

// What stands behind a character and the hex digits that belong to it.
#[tactic(auto, unfolding(crate::specs::Frames::passed))]
fn behind(b: u8, rest: &[u8]) -> &[u8]
    ensures { result.now ≡ drop (passed b) rest.now }
{
    if b == b'=' {
        rest.get(2..).unwrap_or(&[])
    } else {
        rest
    }
}

// The bytes that a text means.
// No Display, as putting says.
pub fn put_meant(out: &mut [u8], at: usize, text: &[u8]) -> usize
    ensures { (result, out.new) ≡ puts (meant_by text.now) at out.old }
{
    let mut place = at;
    let mut rest = text;
    while let Some((b, others)) = rest.split_first() {
        place = put_byte(out, place, byte_meant(rest));
        rest = behind(*b, others);
    }
    place
}

// The inverse of end_meant: a table of two pairs, searched both ways, is no plainer than two matches.
#[tactic(auto, unfolding(crate::specs::Frames::shown_byte))]
fn shown(b: u8) -> u8
    ensures { result ≡ shown_byte b }
{
    match b {
        b'\n' => b'<',
        b'\r' => b'>',
        _ => b,
    }
}

// Bytes, with LF and CR in their readable form.
#[tactic(auto, unfolding(crate::specs::Putting::puts, crate::specs::Frames::shown_as))]
pub fn put_shown(out: &mut [u8], at: usize, bytes: &[u8]) -> usize
    ensures { (result, out.new) ≡ puts (shown_as bytes.now) at out.old }
{
    let mut place = at;
    for b in bytes {
        place = put_byte(out, place, shown(*b));
    }
    place
}
