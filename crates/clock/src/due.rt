// When an end's next tick does something (rule K6; our own addition): a panel sleeps until then.
ghost use Rattle.std.specs.Prelude.{◌≡◌};
ghost use Rattle.clock.specs.Due.{time_left};

use crate::clock::elapsed;
use records::refusals::Refusal;

// After how many milliseconds a tick does something, or that none does until another call; or a refusal.
pub type Due = Result<Option<u32>, Refusal>;

// How long a timer still runs: 0 where it has run out.
#[tactic(auto, unfolding(crate::specs::Due::time_left))]
pub fn time_left(at: u32, start: u32, limit: u32) -> u32
    ensures { result ≡ time_left at start limit }
{
    limit.saturating_sub(elapsed(at, start))
}
