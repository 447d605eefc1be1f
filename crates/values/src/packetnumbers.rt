// What stands for a packet's value (rules V1 to V17): its fixed character, whether it is a number, and the rule for that number.
ghost use Rattle.std.specs.Prelude.{◌≡◌};
ghost use Rattle.values.specs.PacketNumbers.{lead_of, is_decimal, ruled, permits_number};

// The fixed character that a value begins with, 0 where it has none: F's C, the colon of M and V.
// 0 and no Option: docs/PROMISES.md has it as PacketNumbers.lead_of, which says 0. A packet letter is a u8: a telegram may have any byte there.
#[tactic(auto, unfolding(crate::specs::PacketNumbers::lead_of))]
pub fn lead_of(letter: u8) -> u8
    ensures { result ≡ lead_of letter }
{
    match letter {
        b'F' => b'C',
        b'M' | b'V' => b':',
        _ => 0,
    }
}

// Whether a value's characters are the decimal digits of its number; else each is a digit of base 256.
#[tactic(auto, unfolding(crate::specs::PacketNumbers::is_decimal))]
pub fn is_decimal(letter: u8) -> bool
    ensures { result ≡ is_decimal letter }
{
    match letter {
        b'L' | b'%' | b'H' | b'E' => true,
        b'S' | b'D' => true,
        b'C' | b'T' | b'R' => true,
        b'F' | b'P' => true,
        _ => false,
    }
}

// Whether there is a rule for the number of a packet's value.
#[tactic(auto, unfolding(crate::specs::PacketNumbers::ruled))]
pub(crate) fn is_ruled(line: u8, letter: u8) -> bool
    ensures { result ≡ ruled line letter }
{
    letter == b'R'
}

// Whether the number of a packet's value is permitted.
#[tactic(auto, unfolding(crate::specs::PacketNumbers::permits_number))]
pub(crate) fn permits_number(line: u8, letter: u8, n: u32) -> bool
    ensures { result ≡ permits_number line letter n }
{
    letter != b'R' || matches!(n, 0 | 88)
}
