// The desk, the slave's end of a line (rules D1 to D19).
#![tactic(auto)]

pub mod answers;
pub mod applying;
pub mod clearing;
pub mod deciding;
pub mod due;
pub mod fitting;
pub mod heard;
pub mod hearing;
pub mod panel;
pub mod queue;
pub mod replying;
mod sound;
pub mod state;
pub mod waiting;
