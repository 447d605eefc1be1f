// Records and states as blocks of bytes of a fixed length (rules F5, F7, F8).
#![tactic(auto)]

pub mod desks;
pub mod gatherers;
pub mod heads;
pub mod layout;
pub mod masters;
pub mod numbers;
pub mod record;
