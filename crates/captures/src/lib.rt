// The listing of a capture of any length, a turn at a time (rules P1 to P5, P10).
#![tactic(auto)]

pub mod lister;
pub mod listing;
pub mod part;
pub mod turn;
