// The records and the numbered refusals (rules L6 to L19, R1 to R20), and the answers that hold them (rules W1, W2).
#![tactic(auto)]

pub mod answers;
pub mod records;
pub mod refusals;
