// The C face (include/in656.h): the exported functions, on numbers and lent bytes.
// Their parameters stand as the header has them. C lends blocks of any length and says a line as any number: each call tests both,
// with the refusals that the header gives it.
#![tactic(auto)]

pub mod desks;
pub mod due;
pub mod edition;
pub mod gatherers;
pub mod inputs;
pub mod lengths;
pub mod log;
pub mod looks;
pub mod masters;
pub mod packets;
pub mod results;
pub mod telegrams;
pub mod words;
