// Runs damaged telegrams: the telegram of case h (rule W10) with every byte replaced by every value, and inputs of many lengths.
#![tactic(auto)]

mod rows;
mod telegrams;

use stdio::input::called_alone;

fn main(rt: HostRuntime) {
    if !called_alone(rt, b"usage: damage\n") {
        return;
    }
    rows::run(rt);
}
