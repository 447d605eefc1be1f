// When the master's next tick does something (rule M19; our own addition).
ghost use Rattle.std.specs.Prelude.{◌≡◌};
ghost use Rattle.clock.specs.Due.{when_of};
ghost use Rattle.master.specs.Due.{due_of};

use crate::sending::T2;
use crate::state::Master;
use crate::times::t0_of;
use clock::due::{Due, time_left};
use records::refusals::Refusal;

impl Master {
    // 15; what is left of T0 while free, and of T2 while not.
    #[tactic(auto, unfolding(crate::specs::Due::due_of))]
    pub fn due(self, at: u32) -> Due
        ensures { when_of result ≡ due_of self at }
    {
        if !self.in_ranges() {
            return Err(Refusal::State);
        }
        if self.count == 0 {
            Ok(Some(time_left(at, self.t0, t0_of(self.line, self.operation))))
        } else {
            Ok(Some(time_left(at, self.t2, T2)))
        }
    }
}
