// The master's state by value, its ranges and its start (rules M1, E1, E9, E11).
ghost use Rattle.std.specs.Prelude.{◌≡◌, Ok, Err};
ghost use Rattle.records.specs.Answers.{fault_of};
ghost use Rattle.master.specs.Answers.{told_of};
ghost use Rattle.master.specs.declared.answers.Answer.TheVariants.{Nothing};
ghost use Rattle.master.specs.State.{sendable, fits_free, in_ranges, call_fault, after_sending, with_line, freed, answered_state, answered_with, started, start_of};

use crate::answers::Answer;
use crate::times::{operation_after, operation_fits};
use characters::marks::LONGEST;
use clock::counters::{ToSend, in_range};
use forms::lines::is_line;
use forms::table::by_master;
use records::records::{Record, type_of};
use records::refusals::Refusal;
use values::values::permits_record;

// A count of 0 is free; 1 to 3 are the sendings made of rec's telegram. While free, rec and T2's start are not looked at and stay as they were.
// They are no Option of a telegram that waits: specs/State freed keeps them, as in656.h stores them.
// operation: the last A that answered t said that the key is in position Operation.
#[derive(Clone, Copy)]
pub struct Master {
    pub line: u8,
    pub good: bool,
    pub number: ToSend,
    pub count: u8,
    pub rec: Record,
    pub t0: u32,
    pub t2: u32,
    pub operation: bool,
}

// The state behind a call, and its answer. One Step<S, A> for both ends is no plainer: the clauses say whose state it is, `result.master`.
#[derive(Clone, Copy)]
pub struct Step {
    pub master: Master,
    pub answer: Result<Answer, Refusal>,
}

// Whether the master may send a record on a line: its type, and its values.
// The desk's may_reply begins with another test: permits_record is what both share. Line and record stay apart, as it says.
#[tactic(auto, unfolding(crate::specs::State::sendable))]
fn may_send(line: u8, rec: Record) -> bool
    ensures { result ≡ sendable line rec }
{
    by_master(line, type_of(rec)) && permits_record(line, rec)
}

impl Master {
    // Starts free, number 0, line good, T0 running from the start call.
    // Refused with a state of line 0: specs/State start_of has that state, so it is no Err alone.
    // No trait of both ends, as Desk::start says.
    #[tactic(auto, unfolding(crate::specs::State::start_of))]
    pub fn start(line: u8, at: u32) -> Step
        ensures { (result.master, told_of result.answer) ≡ start_of line at }
    {
        if is_line(line) {
            Master::started(line, at).nothing()
        } else {
            Master {
                good: false,
                ..Master::started(0, 0)
            }
            .refused(Refusal::State)
        }
    }

    // The state behind a start on a line.
    fn started(line: u8, at: u32) -> Master
        ensures { result ≡ started line at }
    {
        Master {
            line,
            good: true,
            number: ToSend(0),
            count: 0,
            rec: Record::Idling(b't' as u32),
            t0: at,
            t2: at,
            operation: false,
        }
    }

    // What is asked of a free state: the line, the number and the flag are in their ranges.
    #[tactic(auto, unfolding(crate::specs::State::fits_free))]
    fn fits_free(self) -> bool
        ensures { result ≡ fits_free self }
    {
        is_line(self.line) && in_range(self.number.0) && operation_fits(self.line, self.operation)
    }

    // Whether the state is in its ranges.
    // Each call asks it: a state is loaded from the caller's block (in656.h), and one out of its ranges is refused 15.
    #[tactic(auto, unfolding(crate::specs::State::in_ranges))]
    pub fn in_ranges(self) -> bool
        ensures { result ≡ in_ranges self }
    {
        self.fits_free() && (self.count == 0 || self.count < 4 && may_send(self.line, self.rec))
    }

    // What refuses a call that may send: 15, then 14.
    #[tactic(auto, unfolding(crate::specs::State::call_fault))]
    pub(crate) fn call_check(self, room: usize) -> Result<(), Refusal>
        ensures { fault_of result ≡ call_fault self room }
    {
        if !self.in_ranges() {
            return Err(Refusal::State);
        }
        if room < LONGEST {
            return Err(Refusal::NoRoom);
        }
        Ok(())
    }

    // Behind a sending, which restarts T0 and T2.
    pub(crate) fn after_sending(self, rec: Record, count: u8, at: u32) -> Master
        ensures { result ≡ after_sending self rec count at }
    {
        Master {
            count,
            rec,
            t0: at,
            t2: at,
            ..self
        }
    }

    // The line noted good or lost.
    pub(crate) fn with_line(self, good: bool) -> Master
        ensures { result ≡ with_line self good }
    {
        Master { good, ..self }
    }

    // Free, with the next number to send.
    pub(crate) fn freed(self, number: ToSend) -> Master
        ensures { result ≡ freed self number }
    {
        Master {
            number,
            count: 0,
            ..self
        }
    }

    // Answered: the number changes.
    pub(crate) fn answered(self) -> Master
        ensures { result ≡ answered_state self }
    {
        self.freed(self.number.changed())
    }

    // Answered by a permitted record: an A that answers t also tells the key position, by which T0 is; T0's start stays.
    pub(crate) fn answered_with(self, rec: Record) -> Master
        ensures { result ≡ answered_with self rec }
    {
        Master {
            operation: operation_after(self.line, type_of(self.rec), rec, self.operation),
            ..self.answered()
        }
    }

    // A call that does nothing gives the same state.
    pub(crate) fn nothing(self) -> Step
        ensures { result ≡ record { master = self; answer = Ok Nothing } }
    {
        Step {
            master: self,
            answer: Ok(Answer::Nothing),
        }
    }

    // A refused call gives the same state.
    pub(crate) fn refused(self, refusal: Refusal) -> Step
        ensures { result ≡ record { master = self; answer = Err refusal } }
    {
        Step {
            master: self,
            answer: Err(refusal),
        }
    }
}
