// The table of lines and the table of forms: what depends on the line, and what each telegram is made of (rules L1 to L19).
#![tactic(auto)]

pub mod lines;
pub mod rows;
pub mod table;
