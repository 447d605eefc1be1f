// When the desk's next tick does something (rule D19; our own addition).
ghost use Rattle.std.specs.Prelude.{◌≡◌};
ghost use Rattle.clock.specs.Due.{when_of};
ghost use Rattle.desk.specs.Due.{due_of};

use crate::panel::T1;
use crate::state::Desk;
use clock::due::{Due, time_left};
use records::refusals::Refusal;

impl Desk {
    // 15; what is left of T1 while the line is good; never while it is lost.
    #[tactic(auto, unfolding(crate::specs::Due::due_of))]
    pub fn due(self, at: u32) -> Due
        ensures { when_of result ≡ due_of self at }
    {
        if !self.in_ranges() {
            return Err(Refusal::State);
        }
        if self.good {
            Ok(Some(time_left(at, self.t1, T1)))
        } else {
            Ok(None)
        }
    }
}
