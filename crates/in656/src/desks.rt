// The desk on a state of bytes.
// Parameters and tests of lengths and lines are as lib.rt says.
ghost use Rattle.std.specs.Prelude.{◌≡◌};
ghost use Rattle.desk.specs.Replying.{origin_of};
ghost use Rattle.desk.specs.Answers.{done_of};
ghost use Rattle.desk.specs.Heard.{told_of};
ghost use Rattle.in656.specs.Desks.{stepped, desk_start, desk_tick, desk_queue, desk_set, desk_key, desk_clear_queue, desk_clear_set, panel_block, told_block, heard_parts, desk_hear};

use crate::inputs::{byte_or, line_for, meaning};
use crate::results::frames::desk_frame;
use crate::results::result::{In656Result, keep};
use blocks::desks::{DESK_LENGTH, load};
use blocks::layout::save;
use blocks::record::RECORD_LENGTH;
use desk::applying::Hearing;
use desk::heard::Heard;
use desk::replying::Source;
use desk::state::{Desk, Step};
use records::refusals::Refusal;

// The result and the state behind a call.
#[tactic(auto, unfolding(crate::specs::Desks::stepped, crate::specs::Desks::desk_after))]
fn close(step: Step, state: &mut [u8]) -> In656Result
    ensures { (result, state.new) ≡ stepped (step.desk, done_of step.answer) state.old }
{
    let r = In656Result::from(step.answer);
    keep(r, step.desk, state);
    r
}

#[unsafe(no_mangle)]
pub extern "C" fn in656_desk_start(state: &mut [u8], line: u32) -> In656Result
    ensures { (result, state.new) ≡ desk_start state.old line }
{
    close(Desk::start(line_for(DESK_LENGTH, state, line)), state)
}

#[unsafe(no_mangle)]
pub extern "C" fn in656_desk_tick(state: &mut [u8], time: u32) -> In656Result
    ensures { (result, state.new) ≡ desk_tick state.old time }
{
    close(load(state).tick(time), state)
}

#[unsafe(no_mangle)]
pub extern "C" fn in656_desk_queue(state: &mut [u8], block: &mut [u8]) -> In656Result
    ensures { (result, (state.new, block.new)) ≡ desk_queue state.old block.old }
{
    close(load(state).queue(meaning(block)), state)
}

#[unsafe(no_mangle)]
pub extern "C" fn in656_desk_set(state: &mut [u8], block: &[u8]) -> In656Result
    ensures { (result, state.new) ≡ desk_set state.old block.now }
{
    close(load(state).set(meaning(block)), state)
}

#[unsafe(no_mangle)]
pub extern "C" fn in656_desk_key(state: &mut [u8], key: u32) -> In656Result
    ensures { (result, state.new) ≡ desk_key state.old key }
{
    close(load(state).turn_key(byte_or(0, key)), state)
}

#[unsafe(no_mangle)]
pub extern "C" fn in656_desk_clear_queue(state: &mut [u8]) -> In656Result
    ensures { (result, state.new) ≡ desk_clear_queue state.old }
{
    close(load(state).clear_queue(), state)
}

#[unsafe(no_mangle)]
pub extern "C" fn in656_desk_clear_set(state: &mut [u8]) -> In656Result
    ensures { (result, state.new) ≡ desk_clear_set state.old }
{
    close(load(state).clear_set(), state)
}

// The record that goes to the panel fills the block.
fn put_panel(source: Source, block: &mut [u8])
    ensures { block.new ≡ panel_block (origin_of source) block.old }
{
    if let Source::Panel(rec) = source {
        save(rec, block);
    }
}

// The record block behind a hearing.
fn put_told(answer: Result<Heard, Refusal>, block: &mut [u8])
    ensures { block.new ≡ told_block (told_of answer) block.old }
{
    if let Ok(Heard::Handled(_, source, _)) = answer {
        put_panel(source, block);
    }
}

// State and record block behind a hearing.
#[tactic(auto, unfolding(crate::specs::Desks::heard_parts, crate::specs::Desks::desk_after))]
fn close_hearing(hearing: Hearing, state: &mut [u8], block: &mut [u8]) -> In656Result
    ensures { (result, (state.new, block.new)) ≡ heard_parts hearing.desk (told_of hearing.answer) state.old block.old }
{
    let r = In656Result::from(hearing.answer);
    put_told(hearing.answer, block);
    keep(r, hearing.desk, state);
    r
}

#[unsafe(no_mangle)]
pub extern "C" fn in656_desk_hear(
    state: &mut [u8],
    time: u32,
    frame: &[u8],
    out: &mut [u8],
    block: &mut [u8],
) -> In656Result
    ensures { (result, (state.new, (block.new, out.new))) ≡ desk_hear state.old time frame.now block.old out.old }
{
    let desk = load(state);
    if block.len() != RECORD_LENGTH {
        return In656Result::from(desk::hearing::hear(desk, time, frame, &mut []).answer);
    }
    let hearing = desk::hearing::hear(desk, time, frame, out);
    let r = close_hearing(hearing, state, block);
    desk_frame(r, hearing.answer, desk.line, frame)
}
