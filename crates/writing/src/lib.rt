// Writing a telegram, sending it, and both round trips of reading and writing (rules W4 to W8).
#![tactic(auto)]

pub mod sending;
pub mod writing;
