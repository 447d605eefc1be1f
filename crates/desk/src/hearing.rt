// Hearing a frame (rules E1, E4, D4 to D8): 15, 14, the first rule, then the rule that settles it.
ghost use Rattle.std.specs.Prelude.{◌≡◌, ◌≤◌, length, Err};
ghost use Rattle.characters.specs.Marks.{longest};
ghost use Rattle.desk.specs.Heard.{told_of};
ghost use Rattle.desk.specs.Hearing.{heard_of, hear_of};

use crate::applying::{Hearing, apply};
use crate::deciding::decide;
use crate::sound::Sound;
use crate::state::Desk;
use characters::marks::LONGEST;
use records::refusals::Refusal;

// A refused hearing gives the same state.
// Desk::refused with the answer of a hearing.
fn refused(desk: Desk, refusal: Refusal) -> Hearing
    ensures { result ≡ record { desk = desk; answer = Err refusal } }
{
    Hearing {
        desk,
        answer: Err(refusal),
    }
}

// The line noted lost where it is, then the rule that settles the frame.
// The output's room stays in the requires, as applying says.
// at, frame and out are when and what a call hears and where its answer goes: three things, no struct.
#[tactic(auto, unfolding(crate::specs::Hearing::heard_of), using(crate::proofs::Numbers::ruling_number))]
fn settle(sound: Sound, lost: bool, at: u32, frame: &[u8], out: &mut [u8]) -> Hearing
    requires { longest ≤ length out.old }
    ensures { (result.desk, told_of result.answer, out.new) ≡ heard_of sound.desk lost at frame.now out.old }
{
    let noted = sound.noted(lost);
    let rule = decide(noted.desk, frame);
    apply(noted, lost, at, rule, out)
}

// Hear: 15, then 14, then by the state it finds.
#[tactic(auto, unfolding(crate::specs::Hearing::hear_of))]
pub fn hear(desk: Desk, at: u32, frame: &[u8], out: &mut [u8]) -> Hearing
    ensures { (result.desk, told_of result.answer, out.new) ≡ hear_of desk at frame.now out.old }
{
    if !desk.in_ranges() {
        return refused(desk, Refusal::State);
    }
    if out.len() < LONGEST {
        return refused(desk, Refusal::NoRoom);
    }
    settle(Sound { desk }, desk.loses(at), at, frame, out)
}
