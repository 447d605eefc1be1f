// A byte as two digits 0-9 A-F, put and parsed.
ghost use Rattle.std.specs.Prelude.{◌≡◌, ◌<◌};
ghost use Rattle.characters.specs.Checksum.{check_text};
ghost use Rattle.text.specs.Putting.{puts};
ghost use Rattle.text.specs.Hex.{hex_digit, hex_says};

use crate::putting::put_byte;
use characters::checksum::hex;

// No Display, as putting says.
#[tactic(auto, unfolding(crate::specs::Putting::puts, characters::specs::Checksum::check_text))]
pub fn put_hex(out: &mut [u8], at: usize, byte: u8) -> usize
    ensures { (result, out.new) ≡ puts (check_text byte) at out.old }
{
    let a = put_byte(out, at, hex(byte / 16));
    put_byte(out, a, hex(byte))
}

// What one digit says; other characters say 0.
// No to_digit, which takes small letters too: docs/PROMISES.md has hex_value as Hex.hex_says, where they say 0.
#[tactic(auto, unfolding(crate::specs::Hex::hex_digit))]
fn digit_value(b: u8) -> u8
    ensures { (result ≡ hex_digit b) × (result < 16) }
{
    match b {
        b'0'..=b'9' => b - b'0',
        b'A'..=b'F' => b - b'A' + 10,
        _ => 0,
    }
}

// The byte that two digits say.
#[tactic(auto, unfolding(crate::specs::Hex::hex_says))]
pub fn hex_value(high: u8, low: u8) -> u8
    ensures { result ≡ hex_says high low }
{
    digit_value(high) * 16 + digit_value(low)
}
