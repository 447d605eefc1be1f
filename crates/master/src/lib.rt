// The master's end of a line, the bench (rules M1 to M19).
#![tactic(auto)]

pub mod answering;
pub mod answers;
pub mod due;
pub mod hearing;
pub mod rules;
pub mod sending;
mod sound;
pub mod state;
pub mod times;
