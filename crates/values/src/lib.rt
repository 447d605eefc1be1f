// What a packet's value may be, its number and its characters, and which records are permitted (rules V1 to V18).
#![tactic(auto)]

pub mod numbers;
pub mod packetnumbers;
pub mod packets;
pub mod values;
