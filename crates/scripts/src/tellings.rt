// What the calls of each end answer, in words. A match gives each case its text, and no Display does: there is no heap to make text in,
// what has no room in the lent output is dropped, and docs/SCENES.md promises the bytes of each row.
ghost use Rattle.std.specs.Prelude.{◌≡◌, List, ℕ};
ghost use Rattle.records.specs.Refusals.{refusal_of};
ghost use Rattle.text.specs.Amounts.{bytes_text};
ghost use Rattle.text.specs.Items.{record_text, refusal_text};
ghost use Rattle.text.specs.Putting.{puts};

pub mod desks;
pub mod due;
pub mod masters;
pub mod sources;

use records::records::Record;
use records::refusals::Refusal;
use text::amounts::put_bytes;
use text::items::{put_record, put_refusal};

// What rows say in words.
pub trait InWords {
    ghost words: { Self → List ℕ };

    fn put(self, out: &mut [u8], at: usize) -> usize
        ensures { (result, out.new) ≡ puts (words self) at out.old };
}

impl InWords for Record {
    ghost words = { record_text };

    fn put(self, out: &mut [u8], at: usize) -> usize {
        put_record(out, at, self)
    }
}

impl InWords for Refusal {
    ghost words = { λ refusal. refusal_text (refusal_of refusal) };

    fn put(self, out: &mut [u8], at: usize) -> usize {
        put_refusal(out, at, self)
    }
}

// So many bytes.
#[derive(Clone, Copy)]
pub(crate) struct Bytes(pub(crate) usize);

impl InWords for Bytes {
    ghost words = { λ bytes. bytes_text bytes.0 };

    fn put(self, out: &mut [u8], at: usize) -> usize {
        put_bytes(out, at, self.0)
    }
}
