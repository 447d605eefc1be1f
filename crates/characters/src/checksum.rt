// The checksum (rules B4, B5; 001 section 4.4).
ghost use Rattle.std.specs.Prelude.{◌≡◌};
ghost use Rattle.characters.specs.Checksum.{checksum_of, hex_of};

// The two's complement, modulo 256, of the sum of the bytes.
#[tactic(auto, unfolding(crate::specs::Checksum::total, crate::specs::Checksum::checksum_of))]
pub fn checksum(s: &[u8]) -> u8
    ensures { result ≡ checksum_of s.now }
{
    let mut sum: u32 = 0;
    for b in s {
        sum = (sum + *b as u32) % 256;
    }
    ((256 - sum) % 256) as u8
}

// The character 0-9 A-F of the low four bits.
// No char::from_digit, whose letters are small.
pub fn hex(n: u8) -> u8
    ensures { result ≡ hex_of n }
{
    let digit = n % 16;
    if digit < 10 { digit + b'0' } else { digit + 55 }
}
