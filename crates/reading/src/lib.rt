// Reading a telegram: its frame, its data field, and what it reads as (rules R1 to R11, W1 to W3).
#![tactic(auto)]

pub mod datafield;
pub mod frame;
pub mod reading;
