// The master on a state of bytes.
// Parameters and tests of lengths and lines are as lib.rt says.
ghost use Rattle.std.specs.Prelude.{◌≡◌};
ghost use Rattle.master.specs.Answers.{told_of};
ghost use Rattle.in656.specs.Masters.{stepped, master_start, master_offer, master_tick, answer_block, master_hear};

use crate::inputs::{line_for, meaning};
use crate::results::frames::master_frame;
use crate::results::result::{In656Result, keep};
use crate::telegrams::fill;
use blocks::layout::save;
use blocks::masters::{MASTER_LENGTH, load};
use blocks::record::RECORD_LENGTH;
use master::answers::Answer;
use master::hearing::hear;
use master::state::{Master, Step};
use records::refusals::Refusal;

// The result and the state behind a call.
#[tactic(auto, unfolding(crate::specs::Masters::stepped, crate::specs::Masters::master_after))]
fn close(step: Step, state: &mut [u8]) -> In656Result
    ensures { (result, state.new) ≡ stepped (step.master, told_of step.answer) state.old }
{
    let r = In656Result::from(step.answer);
    keep(r, step.master, state);
    r
}

#[unsafe(no_mangle)]
pub extern "C" fn in656_master_start(state: &mut [u8], line: u32, time: u32) -> In656Result
    ensures { (result, state.new) ≡ master_start state.old line time }
{
    close(
        Master::start(line_for(MASTER_LENGTH, state, line), time),
        state,
    )
}

#[unsafe(no_mangle)]
pub extern "C" fn in656_master_offer(
    state: &mut [u8],
    time: u32,
    block: &[u8],
    out: &mut [u8],
) -> In656Result
    ensures { (result, (state.new, out.new)) ≡ master_offer state.old time block.now out.old }
{
    let master = load(state);
    close(master.offer(time, meaning(block), out), state)
}

#[unsafe(no_mangle)]
pub extern "C" fn in656_master_tick(state: &mut [u8], time: u32, out: &mut [u8]) -> In656Result
    ensures { (result, (state.new, out.new)) ≡ master_tick state.old time out.old }
{
    let master = load(state);
    close(master.tick(time, out), state)
}

// The record of an answer fills the block.
fn put_answer(answer: Result<Answer, Refusal>, block: &mut [u8])
    ensures { block.new ≡ answer_block (told_of answer) block.old }
{
    match answer {
        Ok(Answer::Answered { rec, .. }) => save(rec, block),
        Ok(Answer::OtherKind { reading, .. }) => fill(reading, block),
        _ => {}
    }
}

#[unsafe(no_mangle)]
pub extern "C" fn in656_master_hear(
    state: &mut [u8],
    time: u32,
    frame: &[u8],
    out: &mut [u8],
    block: &mut [u8],
) -> In656Result
    ensures { (result, (state.new, (block.new, out.new))) ≡ master_hear state.old time frame.now block.old out.old }
{
    let master = load(state);
    if block.len() != RECORD_LENGTH {
        return In656Result::from(hear(master, time, frame, &mut []).answer);
    }
    let step = hear(master, time, frame, out);
    put_answer(step.answer, block);
    let r = close(step, state);
    master_frame(r, step.answer, master.line, frame)
}
