// Clearing what waits for the master, as a panel does at the end of a shift (rules D17, D18; our own addition).
ghost use Rattle.std.specs.Prelude.{◌≡◌};
ghost use Rattle.desk.specs.Answers.{done_of};
ghost use Rattle.desk.specs.Clearing.{clear_queue_of, clear_set_of};

use crate::state::{Desk, Step};
use crate::waiting::BLANK;
use records::refusals::Refusal;

impl Desk {
    // Emptying the queue: 15; all else stays, the stored answer too.
    #[tactic(auto, unfolding(crate::specs::Clearing::clear_queue_of))]
    pub fn clear_queue(self) -> Step
        ensures { (result.desk, done_of result.answer) ≡ clear_queue_of self }
    {
        if !self.in_ranges() {
            return self.refused(Refusal::State);
        }
        Desk {
            queued: 0,
            queue: [BLANK; 8],
            ..self
        }
        .done()
    }

    // Taking back the record set for r: 15; all else stays.
    #[tactic(auto, unfolding(crate::specs::Clearing::clear_set_of))]
    pub fn clear_set(self) -> Step
        ensures { (result.desk, done_of result.answer) ≡ clear_set_of self }
    {
        if !self.in_ranges() {
            return self.refused(Refusal::State);
        }
        self.with_wanted(None).done()
    }
}
