// What the master sends: offers, polls, and telegrams again (rules M2 to M7).
ghost use Rattle.std.specs.Prelude.{◌≡◌, true, ◌≤◌, ◌<◌, length};
ghost use Rattle.values.specs.Values.{permits_record};
ghost use Rattle.records.specs.Answers.{fault_of};
ghost use Rattle.characters.specs.Marks.{longest};
ghost use Rattle.master.specs.Answers.{which_of, ground_of, told_of};
ghost use Rattle.master.specs.State.{with_line, given_up_state};
ghost use Rattle.master.specs.Sending.{sending_of, failed_of, fail_of, offer_fault, offer_of, polling_of, waiting_of, tick_of};

use crate::answers::{Answer, Cause, Sending};
use crate::rules::poll_of;
use crate::sound::{Busy, Sound};
use crate::state::{Master, Step};
use crate::times::t0_of;
use clock::clock::run_out;
use clock::counters::ToSend;
use forms::table::by_master;
use records::records::{Record, type_of};
use records::refusals::Refusal;
use values::values::permits_record;
use writing::sending::send;

// T2's limit, in milliseconds.
pub const T2: u32 = 2_000;

impl Master {
    // Sends a record's telegram with the number to send; every sending restarts T0 and T2.
    // The number's range stays in the requires: no other call of the master asks for it.
    // at and out, here and below, are when a call sends and where its telegram goes: two things, no struct.
    #[tactic(auto, unfolding(crate::specs::Sending::sending_of))]
    fn send(self, sending: Sending, rec: Record, count: u8, at: u32, out: &mut [u8]) -> Step
        requires { (permits_record self.line rec ≡ true) × ((self.number.0 < 2) × (longest ≤ length out.old)) }
        ensures { (result.master, (told_of result.answer, out.new)) ≡ sending_of (which_of sending) self rec count at out.old }
    {
        let bytes = send(self.line, rec, self.number.value(), out);
        Step {
            master: self.after_sending(rec, count, at),
            answer: Ok(Answer::Sent {
                sending,
                count,
                bytes,
            }),
        }
    }

    // Given up, with the line good or lost: the number becomes 0.
    fn given_up(self, good: bool) -> Master
        ensures { result ≡ given_up_state (with_line self good) }
    {
        self.with_line(good).freed(ToSend(0))
    }

    // A failed sending of a state that is not free: 15, 14, then as above; while free, nothing.
    #[tactic(auto, unfolding(crate::specs::Sending::fail_of), using(crate::proofs::Ranges::passed))]
    pub(crate) fn fail(self, cause: Cause, good: bool, at: u32, out: &mut [u8]) -> Step
        ensures { (result.master, (told_of result.answer, out.new)) ≡ fail_of (ground_of cause) good self at out.old }
    {
        if let Err(refusal) = self.call_check(out.len()) {
            return self.refused(refusal);
        }
        if self.count == 0 {
            return self.nothing();
        }
        Busy { master: self }.failed(cause, good, at, out)
    }

    // What refuses an offer: 16, then 12, then 13.
    // The desk's record_check has this form with other tests: one function of both would take each test.
    #[tactic(auto, unfolding(crate::specs::Sending::offer_fault))]
    fn offer_check(self, rec: Record) -> Result<(), Refusal>
        ensures { fault_of result ≡ offer_fault self rec }
    {
        if self.count != 0 {
            return Err(Refusal::Busy);
        }
        if !by_master(self.line, type_of(rec)) {
            return Err(Refusal::NotSent);
        }
        if !permits_record(self.line, rec) {
            return Err(Refusal::Range);
        }
        Ok(())
    }

    // Offer while free: sends; sending count 1; T0 and T2 start.
    #[tactic(auto, unfolding(crate::specs::Sending::offer_of))]
    pub fn offer(self, at: u32, rec: Record, out: &mut [u8]) -> Step
        ensures { (result.master, (told_of result.answer, out.new)) ≡ offer_of self at rec out.old }
    {
        if let Err(refusal) = self.call_check(out.len()) {
            return self.refused(refusal);
        }
        if let Err(refusal) = self.offer_check(rec) {
            return self.refused(refusal);
        }
        self.send(Sending::Offered, rec, 1, at, out)
    }

    // A tick does at most one thing, by the state it finds.
    #[tactic(auto, unfolding(crate::specs::Sending::tick_of), using(crate::proofs::Ranges::passed))]
    pub fn tick(self, at: u32, out: &mut [u8]) -> Step
        ensures { (result.master, (told_of result.answer, out.new)) ≡ tick_of self at out.old }
    {
        if let Err(refusal) = self.call_check(out.len()) {
            return self.refused(refusal);
        }
        if self.count == 0 {
            return Sound { master: self }.poll(at, out);
        }
        Busy { master: self }.wait(at, out)
    }
}

impl Sound {
    // Tick while free and T0 run out: sends the poll.
    #[tactic(auto, unfolding(crate::specs::Sending::polling_of), using(crate::proofs::Ranges::lined, crate::proofs::Ranges::numbered, crate::proofs::Ranges::poll_sendable, crate::proofs::Ranges::sendable_permits))]
    fn poll(self, at: u32, out: &mut [u8]) -> Step
        requires { longest ≤ length out.old }
        ensures { (result.master, (told_of result.answer, out.new)) ≡ polling_of self.master at out.old }
    {
        let master = self.master;
        if !run_out(at, master.t0, t0_of(master.line, master.operation)) {
            return master.nothing();
        }
        master.send(Sending::Poll, poll_of(master.line), 1, at, out)
    }
}

impl Busy {
    // A failed sending: sent again with a count of 1 or 2, given up with 3.
    #[tactic(auto, unfolding(crate::specs::Sending::failed_of), using(crate::proofs::Ranges::numbered, crate::proofs::Ranges::counted, crate::proofs::Ranges::sends, crate::proofs::Ranges::sendable_permits))]
    fn failed(self, cause: Cause, good: bool, at: u32, out: &mut [u8]) -> Step
        requires { longest ≤ length out.old }
        ensures { (result.master, (told_of result.answer, out.new)) ≡ failed_of (ground_of cause) good self.master at out.old }
    {
        let master = self.master;
        let count = master.count;
        if count == 3 {
            return Step {
                master: master.given_up(good),
                answer: Ok(Answer::GivenUp { cause, count }),
            };
        }
        master.send(Sending::Again, master.rec, count + 1, at, out)
    }

    // Tick while not free and T2 run out: a failed sending; giving up notes the line lost.
    #[tactic(auto, unfolding(crate::specs::Sending::waiting_of))]
    fn wait(self, at: u32, out: &mut [u8]) -> Step
        requires { longest ≤ length out.old }
        ensures { (result.master, (told_of result.answer, out.new)) ≡ waiting_of self.master at out.old }
    {
        if !run_out(at, self.master.t2, T2) {
            return self.master.nothing();
        }
        self.failed(Cause::Silence, false, at, out)
    }
}
