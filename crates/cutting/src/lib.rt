// Cutting a stream into telegrams: item by item, and over a lent slice (rules C1 to C9).
#![tactic(auto)]

pub mod cutting;
pub mod gather;
pub mod search;
pub mod turns;
