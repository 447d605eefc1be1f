// What every call of the C face answers, as numbers.
pub mod desks;
pub mod frames;
pub mod log;
pub mod masters;
pub mod result;
pub mod telegrams;
