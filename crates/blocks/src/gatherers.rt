// A gatherer as a block: its mark, the number of bytes gathered, and the bytes (rules F7, F8, F11).
ghost use Rattle.std.specs.Prelude.{◌≡◌, ◌+◌, ◌<◌, ◌≤◌, length, IfOk, IfErr};
ghost use Rattle.characters.specs.Marks.{longest};
ghost use Rattle.records.specs.declared.refusals.Refusal.TheVariants.{State};
ghost use Rattle.cutting.specs.Gather.{gathered_of};
ghost use Rattle.cutting.specs.declared.gather.Item.TheVariants.{Byte, Hit};
ghost use Rattle.blocks.specs.Gatherers.{gatherer_length, gatherer_bytes, started, count_in, holding_in, gather_in};

use crate::heads::count_byte;
use crate::layout::Put;
use characters::marks::LONGEST;
use characters::slices::byte_at;
use cutting::gather::{Gathered, Gatherer};
use cutting::turns::{Turn, turn_of};
use records::refusals::Refusal;
use text::putting::{put_byte, put_text};

// All bytes of a gatherer's block.
pub const GATHERER_LENGTH: usize = 5 + LONGEST;

impl Put for Gatherer {
    const LENGTH: usize = GATHERER_LENGTH;

    ghost LENGTH = { gatherer_length };

    ghost bytes_of = { gatherer_bytes };

    fn put(self, out: &mut [u8], at: usize) -> usize {
        let m = put_text(out, at, b"656G");
        let a = put_byte(out, m, count_byte(self.len));
        put_text(out, a, &self.bytes)
    }
}

// Whether a block has its length and begins with the mark.
#[tactic(auto, unfolding(crate::specs::Gatherers::started))]
fn is_started(block: &[u8]) -> bool
    ensures { result ≡ started block.now }
{
    block.len() == GATHERER_LENGTH && block.starts_with(b"656G")
}

// The number of bytes gathered; 66, which no gatherer in its ranges has, where the block was never started.
#[tactic(auto, unfolding(crate::specs::Gatherers::count_in))]
fn count_in(block: &[u8]) -> usize
    ensures { result ≡ count_in block.now }
{
    if is_started(block) {
        usize::from(byte_at(block, 4))
    } else {
        LONGEST
    }
}

// The number of bytes gathered; 15 where it is out of its range, as that of a block that was never started.
fn gathered_in(block: &[u8]) -> Result<usize, Refusal>
    ensures few { IfOk result (λ len. (len ≡ count_in block.now) × (len < longest)) }
    ensures many { IfErr result (λ refusal. (refusal ≡ State) × (longest ≤ count_in block.now)) }
{
    let len = count_in(block);
    if len < LONGEST {
        Ok(len)
    } else {
        Err(Refusal::State)
    }
}

// Writes the number of bytes gathered, and a byte of the telegram at its index.
fn put(block: &mut [u8], count: u8, at: usize, byte: u8)
    requires { at + 5 < length block.old }
    ensures { block.new ≡ holding_in block.old count at byte }
{
    block[4] = count;
    block[at + 5] = byte;
}

// One byte on a gatherer's block: of its bytes a step changes at most the count and one other.
// Not Gatherer::gather between a load and a save: that would take and put all bytes of the block for each byte heard.
pub fn gather_byte(block: &mut [u8], byte: u8) -> Gathered
    ensures { (gathered_of result, block.new) ≡ gather_in block.old (Byte byte) }
{
    let len = gathered_in(block)?;
    match turn_of(len, byte) {
        Turn::Joins(at) => {
            put(block, (at + 1) as u8, at, byte);
            Ok(None)
        }
        Turn::Ends(at) => {
            put(block, 0, at, byte);
            Ok(Some(at + 1))
        }
        Turn::Drops => {
            block[4] = 0;
            Ok(None)
        }
    }
}

// A hit on a gatherer's block.
pub fn gather_hit(block: &mut [u8]) -> Gathered
    ensures { (gathered_of result, block.new) ≡ gather_in block.old Hit }
{
    gathered_in(block)?;
    block[4] = 0;
    Ok(None)
}
