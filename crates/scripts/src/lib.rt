// Rows of a script: which call a row names, what the call answers in words, and what the row prints (rules P8, P9; docs/SCENES.md).
#![tactic(auto)]

pub mod desks;
pub mod ends;
pub mod kinds;
pub mod masters;
pub mod meanings;
mod numbers;
pub mod printing;
pub mod tellings;
