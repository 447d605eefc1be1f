// The desk's calls that hear nothing (rules D2 to D4): the clock's tick, and what the panel queues, sets and turns.
ghost use Rattle.std.specs.Prelude.{◌≡◌, ◌<◌};
ghost use Rattle.records.specs.Answers.{fault_of};
ghost use Rattle.desk.specs.Answers.{done_of};
ghost use Rattle.desk.specs.Panel.{loses_line, noted_of, with_queued, with_wanted, record_fault, key_fault, tick_of, queue_of, set_of, key_of};

use crate::state::{Desk, Step, Waiting};
use clock::clock::run_out;
use forms::lines::{is_key, line_of};
use forms::table::data_type;
use records::records::{Record, type_of};
use records::refusals::Refusal;
use values::values::permits_record;

// T1's limit, in milliseconds.
pub(crate) const T1: u32 = 28_000;

impl Desk {
    // Whether the line is good and T1 has run out.
    #[tactic(auto, unfolding(crate::specs::Panel::loses_line))]
    pub(crate) fn loses(self, at: u32) -> bool
        ensures { result ≡ loses_line self at }
    {
        self.good && run_out(at, self.t1, T1)
    }

    // The state with the line noted lost, where it is.
    #[tactic(auto, unfolding(crate::specs::Panel::noted_of))]
    pub(crate) fn noted(self, lost: bool) -> Desk
        ensures { result ≡ noted_of self lost }
    {
        if lost {
            Desk {
                good: false,
                ..self
            }
        } else {
            self
        }
    }

    // The first rule: line good and T1 run out means line lost.
    #[tactic(auto, unfolding(crate::specs::Panel::tick_of))]
    pub fn tick(self, at: u32) -> Step
        ensures { (result.desk, done_of result.answer) ≡ tick_of self at }
    {
        if !self.in_ranges() {
            return self.refused(Refusal::State);
        }
        let lost = self.loses(at);
        Step {
            desk: self.noted(lost),
            answer: Ok(lost),
        }
    }

    // Checks 15, 12 and 13 on a record that the panel hands over.
    // key_check and the master's offer_check have this form with other tests: one function of them would take each test.
    #[tactic(auto, unfolding(crate::specs::Panel::record_fault))]
    fn record_check(self, rec: Record) -> Result<(), Refusal>
        ensures { fault_of result ≡ record_fault self rec }
    {
        if !self.in_ranges() {
            return Err(Refusal::State);
        }
        if type_of(rec) != data_type(self.line) {
            return Err(Refusal::NotSent);
        }
        if !permits_record(self.line, rec) {
            return Err(Refusal::Range);
        }
        Ok(())
    }

    // A record put behind those that are queued.
    // The count's range stays in the requires: queue alone calls it, behind that test.
    fn with_queued(self, rec: Record) -> Desk
        requires { self.queued < 8 }
        ensures { result ≡ with_queued self rec }
    {
        let mut queue = self.queue;
        queue[self.queued] = Waiting { rec };
        Desk {
            queued: self.queued + 1,
            queue,
            ..self
        }
    }

    // Queueing a record: 15, 12, 13, then 17 where 8 are queued.
    #[tactic(auto, unfolding(crate::specs::Panel::queue_of))]
    pub fn queue(self, rec: Record) -> Step
        ensures { (result.desk, done_of result.answer) ≡ queue_of self rec }
    {
        match self.record_check(rec) {
            Err(refusal) => self.refused(refusal),
            Ok(()) if self.queued < 8 => self.with_queued(rec).done(),
            Ok(()) => self.refused(Refusal::Full),
        }
    }

    // The state with a record set for r, or none.
    pub(crate) fn with_wanted(self, wanted: Option<Record>) -> Desk
        ensures { result ≡ with_wanted self wanted }
    {
        Desk {
            requested: wanted,
            ..self
        }
    }

    // Setting a requested record: 15, 12, 13.
    #[tactic(auto, unfolding(crate::specs::Panel::set_of))]
    pub fn set(self, rec: Record) -> Step
        ensures { (result.desk, done_of result.answer) ≡ set_of self rec }
    {
        match self.record_check(rec) {
            Err(refusal) => self.refused(refusal),
            Ok(()) => self.with_wanted(Some(rec)).done(),
        }
    }

    // Checks 15, 12 and 13 on a key position: 12 on a line without one, whatever the value.
    #[tactic(auto, unfolding(crate::specs::Panel::key_fault))]
    fn key_check(self, key: u8) -> Result<(), Refusal>
        ensures { fault_of result ≡ key_fault self key }
    {
        if !self.in_ranges() {
            return Err(Refusal::State);
        }
        if !line_of(self.line).keyed {
            return Err(Refusal::NotSent);
        }
        if !is_key(key) {
            return Err(Refusal::Range);
        }
        Ok(())
    }

    // The panel's key position: A, X or Y on a line that has one.
    #[tactic(auto, unfolding(crate::specs::Panel::key_of))]
    pub fn turn_key(self, key: u8) -> Step
        ensures { (result.desk, done_of result.answer) ≡ key_of self key }
    {
        match self.key_check(key) {
            Err(refusal) => self.refused(refusal),
            Ok(()) => Desk { key, ..self }.done(),
        }
    }
}
