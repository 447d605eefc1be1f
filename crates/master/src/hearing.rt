// What the master hears: answers, failed sendings, and what it ignores (rules M8 to M14, M18).
ghost use Rattle.std.specs.Prelude.{◌≡◌, ◌≤◌, length, Ok};
ghost use Rattle.records.specs.Answers.{answer_of};
ghost use Rattle.characters.specs.Marks.{longest};
ghost use Rattle.master.specs.Answering.{judged_of};
ghost use Rattle.master.specs.Answers.{told_of};
ghost use Rattle.master.specs.State.{answered_with};
ghost use Rattle.master.specs.declared.answers.Answer.TheVariants.{Ignored, Answered};
ghost use Rattle.master.specs.Hearing.{ended_of, settled_of, judged, hear_of};

use crate::answering::{Verdict, judge};
use crate::answers::{Answer, Cause, Reason};
use crate::sending::T2;
use crate::sound::{Busy, Sound};
use crate::state::{Master, Step};
use clock::clock::run_out;
use records::answers::Reading;
use records::records::{Record, type_of};

// An ignored hearing gives the same state.
// As Master::nothing and Master::refused: one answer each.
fn ignored(master: Master, why: Reason) -> Step
    ensures { result ≡ record { master = master; answer = Ok (Ignored why) } }
{
    Step {
        master,
        answer: Ok(Answer::Ignored(why)),
    }
}

// A permitted answer ends the telegram as answered, and may tell the key position.
fn permitted(master: Master, rec: Record) -> Step
    ensures { result ≡ record { master = answered_with master rec; answer = Ok (Answered rec master.count) } }
{
    Step {
        master: master.answered_with(rec),
        answer: Ok(Answer::Answered {
            rec,
            count: master.count,
        }),
    }
}

// So does an answer of another kind.
fn other_kind(master: Master, reading: Reading) -> Step
    ensures { (result.master, told_of result.answer) ≡ ended_of master (answer_of reading) }
{
    Step {
        master: master.answered(),
        answer: Ok(Answer::OtherKind {
            reading,
            count: master.count,
        }),
    }
}

// What a heard frame makes of state and output: ignored, or the line is good.
fn settle(busy: Busy, at: u32, verdict: Verdict, out: &mut [u8]) -> Step
    requires { longest ≤ length out.old }
    ensures { (result.master, (told_of result.answer, out.new)) ≡ settled_of busy.master at (judged_of verdict) out.old }
{
    let master = busy.master;
    let heard = master.with_line(true);
    match verdict {
        Verdict::Refused(refusal) => ignored(master, Reason::Refused(refusal)),
        Verdict::OtherNumber => ignored(master, Reason::OtherNumber),
        Verdict::Failed => heard.fail(Cause::Rejected, true, at, out),
        Verdict::Answered(rec) => permitted(heard, rec),
        Verdict::OtherKind(reading) => other_kind(heard, reading),
    }
}

// What a frame is to the telegram that the master waits on, and what that makes of state and output.
// at, frame and out are when and what a call hears and where its answer goes: three things, no struct.
fn weigh(busy: Busy, at: u32, frame: &[u8], out: &mut [u8]) -> Step
    requires { longest ≤ length out.old }
    ensures { (result.master, (told_of result.answer, out.new)) ≡ settled_of busy.master at (judged busy.master frame.now) out.old }
{
    let master = busy.master;
    let verdict = judge(master.line, master.number, type_of(master.rec), frame);
    settle(busy, at, verdict, out)
}

// Ignored while free, and when T2 has run out.
#[tactic(auto, unfolding(crate::specs::Hearing::hear_of), using(crate::proofs::Ranges::passes))]
fn listen(sound: Sound, at: u32, frame: &[u8], out: &mut [u8]) -> Step
    requires { longest ≤ length out.old }
    ensures { (result.master, (told_of result.answer, out.new)) ≡ hear_of sound.master at frame.now out.old }
{
    let master = sound.master;
    if master.count == 0 {
        return ignored(master, Reason::Free);
    }
    if run_out(at, master.t2, T2) {
        return ignored(master, Reason::RunOut);
    }
    weigh(Busy { master }, at, frame, out)
}

// Hear: 15, then 14, then by the state it finds.
#[tactic(auto, unfolding(crate::specs::Hearing::hear_of), using(crate::proofs::Ranges::passed))]
pub fn hear(master: Master, at: u32, frame: &[u8], out: &mut [u8]) -> Step
    ensures { (result.master, (told_of result.answer, out.new)) ≡ hear_of master at frame.now out.old }
{
    if let Err(refusal) = master.call_check(out.len()) {
        return master.refused(refusal);
    }
    listen(Sound { master }, at, frame, out)
}
