// Numbers of the header as the rules take them, and what a record block means to a call.
ghost use Rattle.std.specs.Prelude.{◌≡◌, ◌==◌};
ghost use Rattle.records.specs.Refusals.{refusal_of};
ghost use Rattle.blocks.specs.Record.{refused, record_in};
ghost use Rattle.in656.specs.Inputs.{byte_or, line_for, typed, outside, meant_by, record_meant};

use blocks::record::record_in;
use characters::slices::byte_at;
use records::records::{Record, record_of};
use records::refusals::Refusal;

// A number as a byte, and another byte where it is wider.
// The other byte is one that the call refuses; byte_or promises it (docs/PROMISES.md, inputs::byte_or).
#[tactic(auto, unfolding(crate::specs::Inputs::byte_or))]
pub fn byte_or(other: u8, n: u32) -> u8
    ensures { result ≡ byte_or other n }
{
    u8::try_from(n).unwrap_or(other)
}

// The line that a start takes: none where the state has another length.
// 0 is no line, and a start refuses it 15; line_for promises it (docs/PROMISES.md, inputs::line_for).
#[tactic(auto, unfolding(crate::specs::Inputs::line_for))]
pub fn line_for(size: usize, state: &[u8], line: u32) -> u8
    ensures { result ≡ line_for size state.now line }
{
    if state.len() == size {
        byte_or(0, line)
    } else {
        0
    }
}

// The record of a type with values that no packet permits.
#[tactic(auto, unfolding(crate::specs::Inputs::outside))]
fn out_of_range(kind: u8) -> Record
    ensures { result ≡ outside kind }
{
    record_of(kind, [u32::MAX; 10])
}

// Whether a refusal is 13.
fn is_range(refusal: Refusal) -> bool
    ensures { result ≡ ((refusal_of refusal).number == 13) }
{
    matches!(refusal, Refusal::Range)
}

// Whether a block is of a record's type.
pub fn is_typed(block: &[u8]) -> bool
    ensures { result ≡ typed (record_in block.now) }
{
    record_in(block).map_or_else(is_range, |_| true)
}

// The record that a refused block means.
fn refused_meaning(refusal: Refusal, kind: u8) -> Record
    ensures { result ≡ meant_by (refused (refusal_of refusal)) kind }
{
    if is_range(refusal) {
        out_of_range(kind)
    } else {
        Record::Approved(0)
    }
}

// The record that a block means to a call.
pub fn meaning(block: &[u8]) -> Record
    ensures { result ≡ record_meant block.now }
{
    record_in(block).unwrap_or_else(|refusal| refused_meaning(refusal, byte_at(block, 0)))
}
