// A desk that a hearing may work on.
ghost use Rattle.std.specs.Prelude.{◌≡◌, true};
ghost use Rattle.desk.specs.State.{in_ranges};
ghost use Rattle.desk.specs.Panel.{noted_of};

use crate::state::Desk;

// A desk in its ranges.
#[derive(Clone, Copy)]
pub(crate) struct Sound {
    pub(crate) desk: Desk,
    ghost fits: { in_ranges desk ≡ true },
}

impl Sound {
    // A line noted lost stays in its ranges.
    #[tactic(auto, using(crate::proofs::Ranges::noted_ranges))]
    pub(crate) fn noted(self, lost: bool) -> Sound
        ensures { result.desk ≡ noted_of self.desk lost }
    {
        Sound {
            desk: self.desk.noted(lost),
        }
    }
}
