// What both ends of a link share (rules K1 to K6): the clock, the two counters, and when something is due.
// No trait of an end stands over desk and master: nothing calls the two by one name.
#![tactic(auto)]

pub mod clock;
pub mod counters;
pub mod due;
