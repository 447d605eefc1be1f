// Masters that a call may work on.
// The output's room stays in the `requires` of the calls: a struct round the output is no plainer, since the clauses are of out.new.
ghost use Rattle.std.specs.Prelude.{◌≡◌, true, false};
ghost use Rattle.master.specs.State.{is_free, in_ranges};

use crate::state::Master;

// A master in its ranges.
#[derive(Clone, Copy)]
pub(crate) struct Sound {
    pub(crate) master: Master,
    ghost fits: { in_ranges master ≡ true },
}

// A master in its ranges that waits on a telegram.
#[derive(Clone, Copy)]
pub(crate) struct Busy {
    pub(crate) master: Master,
    ghost fits: { in_ranges master ≡ true },
    ghost waits: { is_free master ≡ false },
}
