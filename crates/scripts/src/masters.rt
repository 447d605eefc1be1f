// Rows of the master.
pub mod altering;
pub mod behind;
pub mod calls;
pub mod printing;
