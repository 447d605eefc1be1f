// The number to send and the last number taken are two separate counters, kept apart (rule K5; 001 section 4.2).
ghost use Rattle.std.specs.Prelude.{◌≡◌};
ghost use Rattle.clock.specs.Counters.{in_range, changed_of, is_number, number_in};

// Each holds a u8 and no enum of two: a state with another number can be loaded (in656.h), and is refused 15 by `in_range`.

// The master's: the number of the telegram that it sends.
#[derive(Clone, Copy, PartialEq, Eq)]
pub struct ToSend(pub u8);

// The desk's: the number of the last telegram that it handled.
#[derive(Clone, Copy, PartialEq, Eq)]
pub struct LastTaken(pub u8);

// Whether a byte is '0' or '1'.
pub fn is_number(byte: u8) -> bool
    ensures { result ≡ is_number byte }
{
    matches!(byte, b'0' | b'1')
}

// The number of a number byte.
pub fn number_in(byte: u8) -> u8
    ensures { result ≡ number_in byte }
{
    byte.saturating_sub(b'0')
}

// A number, to send or taken, is 0 or 1.
pub fn in_range(number: u8) -> bool
    ensures { result ≡ in_range number }
{
    number < 2
}

impl ToSend {
    // The number that a telegram is sent with.
    pub fn value(self) -> u8
        ensures { result ≡ self.0 }
    {
        self.0
    }

    // Answered: the number changes.
    pub fn changed(self) -> ToSend
        ensures { result ≡ record { 0 = changed_of self.0 } }
    {
        ToSend(u8::from(self.0 == 0))
    }
}
