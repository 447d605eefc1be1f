// Runs the bench cases (rules W9, W10, R1 to R17), a row of standard input each: what the paper says, what came, and how many differ.
#![tactic(auto)]

mod rows;
mod runs;

use stdio::input::called_alone;

fn main(rt: HostRuntime) {
    if !called_alone(rt, b"usage: cases < ROWS\n") {
        return;
    }
    let mut input = [0u8; 65536];
    let mut out = rows::output();
    rows::run(rt, &mut input, &mut out);
}
