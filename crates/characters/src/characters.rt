// The limited character set (rule B7; 001 section 5.3.1). Its last six characters are read by DS 2089, which has letters where ASCII has { | } and [ \ ].
ghost use Rattle.std.specs.Prelude.{◌≡◌};
ghost use Rattle.laws.specs.Truth.{from};
ghost use Rattle.characters.specs.Characters.{in_set};

// Whether a byte is in the set: its ranges, in the order in which the standard's table lists them. The row ^ has no code there and is none of them.
// A test for each range and no match of all: one match would be tested in the order of the codes, where digits and capitals come late.
#[tactic(auto, unfolding(crate::specs::Characters::in_set))]
pub fn in_set(b: u8) -> bool
    ensures { result ≡ in_set b }
{
    b == b'%' // percent
        || matches!(b, b'('..=b')') // brackets
        || b == b'-' // minus
        || b == b':' // colon
        || b == b'+' // plus
        || matches!(b, b'0'..=b'9') // digits
        || matches!(b, b'A'..=b'Z') // capitals
        || b == b' ' // space
        || matches!(b, b'a'..=b'z') // small letters
        || matches!(b, 0x7B..=0x7D) // æ ø å
        || matches!(b, 0x5B..=0x5D) // Æ Ø Å
}
