// Time (rules K1 to K3): a 32-bit millisecond count that starts again at zero.
ghost use Rattle.std.specs.Prelude.{◌≡◌};
ghost use Rattle.clock.specs.Clock.{elapsed_of, run_out};

// Elapsed time is now less start, modulo 2^32.
// at and start stay two: one is the call's, the other the state's.
pub fn elapsed(at: u32, start: u32) -> u32
    ensures { result ≡ elapsed_of at start }
{
    at.wrapping_sub(start)
}

// A timer has run out when elapsed time is at or above its limit.
#[tactic(auto, unfolding(crate::specs::Clock::run_out))]
pub fn run_out(at: u32, start: u32, limit: u32) -> bool
    ensures { result ≡ run_out at start limit }
{
    limit <= elapsed(at, start)
}
