// Gathering on a state of bytes.
ghost use Rattle.std.specs.Prelude.{◌≡◌};
ghost use Rattle.in656.specs.Gatherers.{gatherer_start, gatherer_byte, gatherer_hit};

use crate::results::result::{In656Result, done, refuse};
use blocks::gatherers::{GATHERER_LENGTH, gather_byte, gather_hit};
use blocks::layout::save;
use cutting::gather::Gatherer;
use records::refusals::Refusal;

#[tactic(auto, unfolding(crate::specs::Gatherers::gatherer_start))]
#[unsafe(no_mangle)]
pub extern "C" fn in656_gatherer_start(state: &mut [u8]) -> In656Result
    ensures { (result, state.new) ≡ gatherer_start state.old }
{
    if state.len() != GATHERER_LENGTH {
        return refuse(Refusal::State);
    }
    save(Gatherer::start(), state);
    done()
}

#[unsafe(no_mangle)]
pub extern "C" fn in656_gatherer_byte(state: &mut [u8], byte: u8) -> In656Result
    ensures { (result, state.new) ≡ gatherer_byte state.old byte }
{
    In656Result::from(gather_byte(state, byte))
}

#[unsafe(no_mangle)]
pub extern "C" fn in656_gatherer_hit(state: &mut [u8]) -> In656Result
    ensures { (result, state.new) ≡ gatherer_hit state.old }
{
    In656Result::from(gather_hit(state))
}
