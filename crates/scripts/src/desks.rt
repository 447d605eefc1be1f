// Rows of the desk.
pub mod altering;
pub mod behind;
pub mod calls;
pub mod printing;
