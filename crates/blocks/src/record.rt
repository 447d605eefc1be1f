// A record as a block: its type, ten values of four bytes, and the bytes for a text, which stay 0 (rule F5).
ghost use Rattle.std.specs.Prelude.{◌≡◌};
ghost use Rattle.blocks.specs.Record.{record_length, record_bytes, record_at, found_of, record_in};

use crate::layout::{Put, Take, is_block, put_each, take_each};
use characters::slices::{byte_at, part};
use records::records::{Record, record_of, type_of, values_of};
use records::refusals::Refusal;
use text::putting::{put_byte, put_text};

// The bytes of the values.
pub const VALUES_LENGTH: usize = 40;

// The bytes for a text, which no record of the three lines has.
pub const TEXT_LENGTH: usize = 23;

// All bytes of a record's block.
pub const RECORD_LENGTH: usize = 1 + VALUES_LENGTH + TEXT_LENGTH;

impl Put for Record {
    const LENGTH: usize = RECORD_LENGTH;

    ghost LENGTH = { record_length };

    ghost bytes_of = { record_bytes };

    fn put(self, out: &mut [u8], at: usize) -> usize {
        let a = put_byte(out, at, type_of(self));
        let b = put_each(out, a, &values_of(self));
        put_text(out, b, &[0u8; TEXT_LENGTH])
    }
}

impl Take for Record {
    ghost made_of = { record_at };

    #[tactic(auto, unfolding(crate::specs::Record::record_at))]
    fn take(bytes: &[u8]) -> Record {
        record_of(byte_at(bytes, 0), take_each(part(bytes, 1, VALUES_LENGTH)))
    }
}

// The record of a block; 12 where the length is another or no record has the type, 13 where a byte stands in a place that the record
// does not use.
// No TryFrom: the record is a type of another crate, and the name says which bytes are meant.
pub fn record_in(block: &[u8]) -> Result<Record, Refusal>
    ensures { found_of result ≡ record_in block.now }
{
    if block.len() != RECORD_LENGTH {
        return Err(Refusal::NotSent);
    }
    let rec = Record::take(block);
    if type_of(rec) != byte_at(block, 0) {
        return Err(Refusal::NotSent);
    }
    if is_block::<Record, RECORD_LENGTH>(rec, block) {
        Ok(rec)
    } else {
        Err(Refusal::Range)
    }
}
