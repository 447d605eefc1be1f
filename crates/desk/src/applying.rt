// What the rule that settles a hearing makes of state and output (rules D5 to D8).
ghost use Rattle.std.specs.Prelude.{◌≡◌, ◌≤◌, ◌<◌, length};
ghost use Rattle.characters.specs.Marks.{longest};
ghost use Rattle.desk.specs.Deciding.{matter_of, ruling_of, answers_with};
ghost use Rattle.desk.specs.Heard.{told_of};
ghost use Rattle.desk.specs.Queue.{reply_to};
ghost use Rattle.desk.specs.Hearing.{with_stored, faulted_of, repeated_of, handled_of, applied_of};

use crate::deciding::{Matter, Rule};
use crate::heard::Heard;
use crate::queue::mark;
use crate::replying::{Reply, choose};
use crate::sound::Sound;
use crate::state::Desk;
use characters::marks::LONGEST;
use characters::slices::copy;
use records::records::Record;
use records::refusals::Refusal;
use writing::sending::send;

// The state behind a hearing, beside its answer: desk::state::Step with another answer.
#[derive(Clone, Copy)]
pub struct Hearing {
    pub desk: Desk,
    pub answer: Result<Heard, Refusal>,
}

// The answer is stored, with zeros behind it.
// Bytes and their count: fixed memory, and the output that they are taken from is the caller's.
fn store(desk: Desk, sent: &[u8]) -> Desk
    requires { length sent.now ≤ longest }
    ensures { result ≡ with_stored desk sent.now }
{
    let mut stored = [0u8; LONGEST];
    let kept = copy(sent, &mut stored);
    Desk {
        kept,
        stored,
        ..desk
    }
}

// The output's room and the number stand in the `requires` of these: a struct round the output is no plainer, since the clauses are of out.new,
// and nor is an enum of two numbers, since the definitions, as telegrams, have any number.
// A checksum fault: N with 1 and the number heard; all else unchanged.
fn fault(sound: Sound, lost: bool, number: u8, out: &mut [u8]) -> Hearing
    requires { (number < 2) × (longest ≤ length out.old) }
    ensures { (result.desk, told_of result.answer, out.new) ≡ faulted_of sound.desk lost number out.old }
{
    let desk = sound.desk;
    let sent = send(desk.line, Record::Rejected(b'1' as u32), number, out);
    Hearing {
        desk,
        answer: Ok(Heard::Fault(lost, sent)),
    }
}

// A repeat: the stored answer again, bytes unchanged; handles nothing.
fn repeat(sound: Sound, out: &mut [u8]) -> Hearing
    requires { longest ≤ length out.old }
    ensures { (result.desk, told_of result.answer, out.new) ≡ repeated_of sound.desk out.old }
{
    let desk = sound.desk;
    let sent = copy(&desk.stored[..desk.kept], out);
    Hearing {
        desk,
        answer: Ok(Heard::Repeat(sent)),
    }
}

// Handled: the answer is stored and sent.
// lost and at stay two, here and in apply: the one is answered, the other goes into the state.
fn handle(sound: Sound, lost: bool, at: u32, number: u8, matter: Matter, out: &mut [u8]) -> Hearing
    requires { (number < 2) × (longest ≤ length out.old) }
    ensures { (result.desk, told_of result.answer, out.new) ≡ handled_of sound.desk lost at number (reply_to sound.desk (matter_of matter)) out.old }
{
    let desk = sound.desk;
    let Reply { rec, source } = choose(desk, matter);
    let sent = send(desk.line, rec, number, out);
    let kept = mark(desk, source, number, at);
    Hearing {
        desk: store(kept, &out[..sent]),
        answer: Ok(Heard::Handled(lost, source, sent)),
    }
}

// The rule on a state, where this call noted the line lost or not.
pub(crate) fn apply(sound: Sound, lost: bool, at: u32, rule: Rule, out: &mut [u8]) -> Hearing
    requires { (answers_with (ruling_of rule) < 2) × (longest ≤ length out.old) }
    ensures { (result.desk, told_of result.answer, out.new) ≡ applied_of sound.desk lost at (ruling_of rule) out.old }
{
    match rule {
        Rule::Silent(refusal) => Hearing {
            desk: sound.desk,
            answer: Ok(Heard::Silent(lost, refusal)),
        },
        Rule::Fault(_, number) => fault(sound, lost, number, out),
        Rule::Repeat(_, _) => repeat(sound, out),
        Rule::Handle(number, matter) => handle(sound, lost, at, number, matter, out),
    }
}
