// Input of any length, a piece at a time: what is wanted and what is kept between two pieces, and the line that the first byte names.
#![tactic(auto)]

pub mod line;
pub mod tails;
pub mod turns;
pub mod wants;
