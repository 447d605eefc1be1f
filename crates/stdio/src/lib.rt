// Standard input and output of the programs. No contract can say what is read or written, or what the system answers.
// rt stands apart from the buffers: each function that calls the host is handed it, and a struct of it and a lent buffer would say no more.
#![tactic(auto)]

pub mod input;
pub mod output;
mod trouble;
pub mod turns;
