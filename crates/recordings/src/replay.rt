// The replay of a log by a fresh desk (rules Q9 to Q14).
pub mod part;
pub mod printing;
pub mod rows;
pub mod state;
pub mod turn;
