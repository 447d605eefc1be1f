// The desk's state, its ranges and its start (rules D1, E9, E10).
ghost use Rattle.std.specs.Prelude.{◌≡◌, false, Ok, Err};
ghost use Rattle.desk.specs.Answers.{done_of};
ghost use Rattle.desk.specs.State.{numbers_fit, records_fit, in_ranges, fresh, start_of};

use crate::answers::Outcome;
use crate::fitting::{key_fits, wanted_fits};
pub use crate::waiting::Waiting;
use crate::waiting::{BLANK, kept_fits, queue_fits};
use characters::marks::LONGEST;
use clock::counters::{LastTaken, in_range};
use forms::lines::is_line;
use records::records::Record;
use records::refusals::Refusal;

// Its line; whether the line is good; the last number taken; T1's start; the stored answer's length and bytes; the record set for r;
// the queue's count and places, the oldest first; the key position.
// Number, T1's start and stored answer are in no Option beside good: they stay while the line is lost (specs/Panel noted_of), as in656.h stores them.
// stored and queue have their counts beside them: there is no heap, and the desk's block holds them so (crate blocks).
#[derive(Clone, Copy)]
pub struct Desk {
    pub line: u8,
    pub good: bool,
    pub last: LastTaken,
    pub t1: u32,
    pub kept: usize,
    pub stored: [u8; LONGEST],
    pub requested: Option<Record>,
    pub queued: usize,
    pub queue: [Waiting; 8],
    pub key: u8,
}

// The state behind a call that hears nothing, beside its answer. A Step<S, A> for both ends is no plainer: the clauses say whose state it is, `result.desk`.
#[derive(Clone, Copy)]
pub struct Step {
    pub desk: Desk,
    pub answer: Outcome,
}

impl Desk {
    // Whether line, number, count and key are in their ranges.
    #[tactic(auto, unfolding(crate::specs::State::numbers_fit))]
    fn numbers_fit(self) -> bool
        ensures { result ≡ numbers_fit self }
    {
        is_line(self.line)
            && in_range(self.last.0)
            && self.queued <= 8
            && key_fits(self.line, self.key)
    }

    // Whether the stored answer's length and the records are.
    #[tactic(auto, unfolding(crate::specs::State::records_fit))]
    fn records_fit(self) -> bool
        ensures { result ≡ records_fit self }
    {
        kept_fits(self.good, self.kept)
            && wanted_fits(self.line, self.requested)
            && queue_fits(self.line, &self.queue, self.queued)
    }

    // Whether the state is in its ranges; places past the count and stored bytes are not looked at.
    // Each call asks it: a state is loaded from the caller's block (in656.h), and one out of its ranges is refused 15.
    #[tactic(auto, unfolding(crate::specs::State::in_ranges))]
    pub fn in_ranges(self) -> bool
        ensures { result ≡ in_ranges self }
    {
        self.numbers_fit() && self.records_fit()
    }

    // The state at the start of a line: line lost, last number 0, no stored answer, T1's start at 0, an empty queue,
    // no requested record and key position A.
    fn fresh(line: u8) -> Desk
        ensures { result ≡ fresh line }
    {
        Desk {
            line,
            good: false,
            last: LastTaken(0),
            t1: 0,
            kept: 0,
            stored: [0u8; LONGEST],
            requested: None,
            queued: 0,
            queue: [BLANK; 8],
            key: b'A',
        }
    }

    // A start on a line; refused 15, with a blank state of line 0, where there is no such line (specs/State start_of has that state, so it is no Err alone).
    // No trait of both ends: the master's start takes a time, its tick an output, and each promise is of its own definition.
    #[tactic(auto, unfolding(crate::specs::State::start_of))]
    pub fn start(line: u8) -> Step
        ensures { (result.desk, done_of result.answer) ≡ start_of line }
    {
        if is_line(line) {
            Desk::fresh(line).done()
        } else {
            Desk::fresh(0).refused(Refusal::State)
        }
    }

    // A call that is done, with the line not noted lost.
    pub(crate) fn done(self) -> Step
        ensures { result ≡ record { desk = self; answer = Ok false } }
    {
        Step {
            desk: self,
            answer: Ok(false),
        }
    }

    // A refused call gives the same state.
    pub(crate) fn refused(self, refusal: Refusal) -> Step
        ensures { result ≡ record { desk = self; answer = Err refusal } }
    {
        Step {
            desk: self,
            answer: Err(refusal),
        }
    }
}
