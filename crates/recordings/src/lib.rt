// What is made of a log of any length: its replay by a fresh desk (rules Q9 to Q14).
#![tactic(auto)]

pub mod replay;
