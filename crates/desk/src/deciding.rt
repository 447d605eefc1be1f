// Which rule settles a hearing, by the line, whether it is good, the last number taken and the frame (rules D5 to D9).
ghost use Rattle.std.specs.Prelude.{◌≡◌};
ghost use Rattle.records.specs.Refusals.{refusal_of};
ghost use Rattle.desk.specs.Deciding.{matter_of, ruling_of, repeats, matter_in, good_frame, bad_frame, ruling_in};

use crate::state::Desk;
use characters::slices::byte_at;
use clock::counters::{LastTaken, is_number, number_in};
use forms::table::by_master;
use reading::reading::read;
use records::answers::Numbered;
use records::records::{Record, type_of};
use records::refusals::Refusal;

// What a telegram in a good frame is.
// An enum and no closure, as Rule: the clauses name both (matter_of, ruling_of).
#[derive(Clone, Copy)]
pub enum Matter {
    // contents refused 8 to 11
    Contents(Refusal),
    // a type the master does not send on this line
    NotMaster,
    // r
    Request,
    // t
    Poll,
    // other types
    Other(Record),
}

// The rule that settles a hearing, with its data.
#[derive(Clone, Copy)]
pub enum Rule {
    // refused 1 to 5, 7, or 6 with another number byte: silent
    Silent(Refusal),
    // refused 6 with number byte '0' or '1', and that number
    Fault(Refusal, u8),
    // good frame, line good, number equal to the last taken, and what it repeats
    Repeat(u8, Matter),
    // good frame otherwise, with its number
    Handle(u8, Matter),
}

// What a telegram with this record is on a line.
// Line and record stay apart, as values::permits_record says.
#[tactic(auto, unfolding(crate::specs::Deciding::matter_in))]
fn matter_of(line: u8, rec: Record) -> Matter
    ensures { matter_of result ≡ matter_in line rec }
{
    match rec {
        _ if !by_master(line, type_of(rec)) => Matter::NotMaster,
        Record::Request(_) => Matter::Request,
        Record::Idling(_) => Matter::Poll,
        _ => Matter::Other(rec),
    }
}

// Whether the line is good and a number is the last taken.
#[tactic(auto, unfolding(crate::specs::Deciding::repeats))]
fn is_repeat(desk: Desk, number: u8) -> bool
    ensures { result ≡ repeats desk.good desk.last.0 number }
{
    desk.good && desk.last == LastTaken(number)
}

// The rule for a good frame.
#[tactic(auto, unfolding(crate::specs::Deciding::good_frame))]
fn on_good(desk: Desk, number: u8, matter: Matter) -> Rule
    ensures { ruling_of result ≡ good_frame desk.good desk.last.0 number (matter_of matter) }
{
    if is_repeat(desk, number) {
        Rule::Repeat(number, matter)
    } else {
        Rule::Handle(number, matter)
    }
}

// The rule for a frame that the reading refuses, with its number byte.
#[tactic(auto, unfolding(crate::specs::Deciding::bad_frame))]
fn on_refused(desk: Desk, refusal: Refusal, byte: u8) -> Rule
    ensures { ruling_of result ≡ bad_frame desk.good desk.last.0 (refusal_of refusal) byte }
{
    match refusal {
        Refusal::Checksum(_) if is_number(byte) => Rule::Fault(refusal, number_in(byte)),
        Refusal::Kind | Refusal::Character(_) | Refusal::Form(_) | Refusal::Value(_) => {
            on_good(desk, number_in(byte), Matter::Contents(refusal))
        }
        _ => Rule::Silent(refusal),
    }
}

// The rule for a frame, by its reading and its number byte.
#[tactic(auto, unfolding(crate::specs::Deciding::ruling_in))]
pub(crate) fn decide(desk: Desk, frame: &[u8]) -> Rule
    ensures { ruling_of result ≡ ruling_in desk.line desk.good desk.last.0 frame.now }
{
    let byte = byte_at(frame, 4);
    match read(desk.line, frame) {
        Ok(Numbered { rec, number }) => on_good(desk, number, matter_of(desk.line, rec)),
        Err(refusal) => on_refused(desk, refusal, byte),
    }
}
