// Looking at a state of bytes, which changes nothing.
// Parameters and tests of lengths and lines are as lib.rt says.
ghost use Rattle.std.specs.Prelude.{◌≡◌, ◌≤◌};
ghost use Rattle.records.specs.Answers.{fault_of};
ghost use Rattle.in656.specs.Looks.{look_fault, shown, desk_seen, set_shown, desk_look, waiting_shown, desk_waiting, master_seen, master_shown, master_look};

use crate::results::desks::DONE;
use crate::results::result::{In656Result, refuse, say};
use blocks::layout::save;
use blocks::record::RECORD_LENGTH;
use desk::state::Desk;
use master::state::Master;
use records::records::Record;
use records::refusals::Refusal;

// Outcome of a look at the master, a number of the C interface (include/in656.h).
const FREE: u32 = 1;

const WAITING: u32 = 2;

// 15 where a state is out of its ranges, then 14 where the block has another length.
#[tactic(auto, unfolding(crate::specs::Looks::look_fault))]
fn may_look(fits: bool, block: &[u8]) -> Result<(), Refusal>
    ensures { fault_of result ≡ look_fault fits block.now }
{
    if !fits {
        return Err(Refusal::State);
    }
    if block.len() != RECORD_LENGTH {
        return Err(Refusal::NoRoom);
    }
    Ok(())
}

// A record is shown: it fills the block.
fn show(r: In656Result, rec: Record, block: &mut [u8]) -> In656Result
    ensures { (result, block.new) ≡ shown r rec block.old }
{
    save(rec, block);
    r.with_record()
}

// What is seen of a desk.
// Two functions ask for the count; a struct for it would be made at once before each.
fn desk_seen(desk: Desk) -> In656Result
    requires { desk.queued ≤ 8 }
    ensures { result ≡ desk_seen desk }
{
    say(DONE, u32::from(desk.key))
        .with_number(desk.last.0)
        .with_count(desk.queued as u8)
        .with_lost(!desk.good)
}

// The record set for r is shown.
fn show_set(wanted: Option<Record>, r: In656Result, block: &mut [u8]) -> In656Result
    ensures { (result, block.new) ≡ set_shown wanted r block.old }
{
    match wanted {
        None => r,
        Some(rec) => show(r, rec, block),
    }
}

#[unsafe(no_mangle)]
pub extern "C" fn in656_desk_look(state: &[u8], block: &mut [u8]) -> In656Result
    ensures { (result, block.new) ≡ desk_look state.now block.old }
{
    let desk = blocks::desks::load(state);
    if let Err(refusal) = may_look(desk.in_ranges(), block) {
        return refuse(refusal);
    }
    show_set(desk.requested, desk_seen(desk), block)
}

// The record of the queue at an index is shown.
#[tactic(auto, unfolding(crate::specs::Looks::waiting_shown))]
fn show_waiting(desk: Desk, index: u32, block: &mut [u8]) -> In656Result
    requires { desk.queued ≤ 8 }
    ensures { (result, block.new) ≡ waiting_shown desk index block.old }
{
    let counted = say(DONE, 0).with_count(desk.queued as u8);
    let at = index as usize;
    if desk.queued <= at {
        return counted;
    }
    show(counted, desk.queue[at].rec, block)
}

#[unsafe(no_mangle)]
pub extern "C" fn in656_desk_waiting(state: &[u8], index: u32, block: &mut [u8]) -> In656Result
    ensures { (result, block.new) ≡ desk_waiting state.now index block.old }
{
    let desk = blocks::desks::load(state);
    if let Err(refusal) = may_look(desk.in_ranges(), block) {
        return refuse(refusal);
    }
    show_waiting(desk, index, block)
}

// What is seen of a master.
fn master_seen(outcome: u32, master: Master) -> In656Result
    ensures { result ≡ master_seen outcome master }
{
    say(outcome, u32::from(master.operation))
        .with_number(master.number.0)
        .with_count(master.count)
        .with_lost(!master.good)
}

// The record that a master waits on is shown.
#[tactic(auto, unfolding(crate::specs::Looks::master_shown))]
fn show_master(master: Master, block: &mut [u8]) -> In656Result
    ensures { (result, block.new) ≡ master_shown master block.old }
{
    if master.count == 0 {
        return master_seen(FREE, master);
    }
    show(master_seen(WAITING, master), master.rec, block)
}

#[unsafe(no_mangle)]
pub extern "C" fn in656_master_look(state: &[u8], block: &mut [u8]) -> In656Result
    ensures { (result, block.new) ≡ master_look state.now block.old }
{
    let master = blocks::masters::load(state);
    if let Err(refusal) = may_look(master.in_ranges(), block) {
        return refuse(refusal);
    }
    show_master(master, block)
}
