// Reading, writing and searching.
// Parameters and tests of lengths and lines are as lib.rt says.
ghost use Rattle.std.specs.Prelude.{◌≡◌};
ghost use Rattle.records.specs.Answers.{answer_of};
ghost use Rattle.in656.specs.Telegrams.{filled_by, read_call, write_call, next_call};

use crate::inputs::{byte_or, is_typed, meaning};
use crate::results::result::{In656Result, refuse};
use blocks::layout::save;
use blocks::record::RECORD_LENGTH;
use cutting::search::span_of;
use forms::lines::is_line;
use reading::reading::read;
use records::answers::{Numbered, Reading};
use records::refusals::Refusal;
use writing::writing::write;

// The record of a reading fills the block.
pub(crate) fn fill(reading: Reading, block: &mut [u8])
    ensures { block.new ≡ filled_by (answer_of reading) block.old }
{
    if let Ok(Numbered { rec, .. }) = reading {
        save(rec, block);
    }
}

#[tactic(auto, unfolding(crate::specs::Telegrams::read_call))]
#[unsafe(no_mangle)]
pub extern "C" fn in656_read(line: u32, frame: &[u8], block: &mut [u8]) -> In656Result
    ensures { (result, block.new) ≡ read_call line frame.now block.old }
{
    let l = byte_or(0, line);
    if !is_line(l) {
        return refuse(Refusal::State);
    }
    if block.len() != RECORD_LENGTH {
        return refuse(Refusal::NoRoom);
    }
    let reading = read(l, frame);
    fill(reading, block);
    In656Result::from(reading)
}

#[tactic(auto, unfolding(crate::specs::Telegrams::write_call))]
#[unsafe(no_mangle)]
pub extern "C" fn in656_write(line: u32, block: &[u8], number: u32, out: &mut [u8]) -> In656Result
    ensures { (result, out.new) ≡ write_call line block.now number out.old }
{
    let l = byte_or(0, line);
    if !is_line(l) {
        return refuse(Refusal::State);
    }
    if !is_typed(block) {
        return refuse(Refusal::NotSent);
    }
    In656Result::from(write(l, meaning(block), byte_or(2, number), out))
}

#[unsafe(no_mangle)]
pub extern "C" fn in656_next(bytes: &[u8], from: usize) -> In656Result
    ensures { result ≡ next_call bytes.now from }
{
    In656Result::from(span_of(bytes, from))
}
