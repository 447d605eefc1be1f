// What a reading answers (rules W1, W2).
use crate::records::Record;
use crate::refusals::Refusal;

// A record with its number.
#[derive(Clone, Copy)]
pub struct Numbered {
    pub rec: Record,
    pub number: u8,
}

// A reading is a record with its number, or a refusal with its place.
pub type Reading = Result<Numbered, Refusal>;
