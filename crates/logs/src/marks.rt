// The marks of log records, and how many bytes each may have (rules Q1, Q2).
ghost use Rattle.std.specs.Prelude.{◌≡◌};
ghost use Rattle.logs.specs.Marks.{mark_of, mark_bytes, may_have};

use characters::marks::LONGEST;

// A sending by the master, one by the slave, a hit.
#[derive(Clone, Copy)]
pub enum Mark {
    Master,
    Slave,
    Hit,
}

// The mark that two bytes are. It and mark_bytes are no TryFrom and From, since docs/PROMISES.md names both.
#[tactic(auto, unfolding(crate::specs::Marks::mark_of))]
pub fn mark_of(left: u8, right: u8) -> Option<Mark>
    ensures { result ≡ mark_of left right }
{
    match (left, right) {
        (b'M', b'>') => Some(Mark::Master),
        (b'S', b'>') => Some(Mark::Slave),
        (b'H', b'!') => Some(Mark::Hit),
        _ => None,
    }
}

// The two bytes of a mark.
pub fn mark_bytes(mark: Mark) -> [u8; 2]
    ensures { result ≡ mark_bytes mark }
{
    match mark {
        Mark::Master => *b"M>",
        Mark::Slave => *b"S>",
        Mark::Hit => *b"H!",
    }
}

// Whether a record of this mark may have so many bytes: a hit none, any other at most 66.
pub fn may_have(mark: Mark, n: usize) -> bool
    ensures { result ≡ may_have mark n }
{
    match mark {
        Mark::Master | Mark::Slave => n <= LONGEST,
        Mark::Hit => n == 0,
    }
}
