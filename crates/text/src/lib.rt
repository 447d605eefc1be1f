// Text of rows: what is put into a lent output or parsed from a lent slice (rules P7, P9).
#![tactic(auto)]

pub mod amounts;
pub mod compared;
pub mod fields;
pub mod fours;
pub mod frames;
pub mod hex;
pub mod items;
pub mod numbers;
pub mod putting;
pub mod tally;
