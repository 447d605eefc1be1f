// A number of 32 bits as four bytes.
ghost use Rattle.std.specs.Prelude.{◌≡◌, ℕ, List, length};
ghost use Rattle.text.specs.Putting.{puts};
ghost use Rattle.text.specs.Fours.{four_bytes, four_said};

use crate::layout::{Put, Take};
use text::fours::{four_said, put_four};

impl Put for u32 {
    const LENGTH: usize = 4;

    ghost LENGTH = { 4 };

    ghost bytes_of = { four_bytes };

    fn put(self, out: &mut [u8], at: usize) -> usize {
        put_four(out, at, self)
    }
}

impl Take for u32 {
    ghost made_of = { four_said };

    fn take(bytes: &[u8]) -> u32 {
        four_said(bytes)
    }
}
