// Capture logs (rules Q1 to Q8): the marks of their records, reading and writing one.
#![tactic(auto)]

pub mod marks;
pub mod reader;
pub mod writer;
