// The result of a call of the C face: numbers only, since C reads it (include/in656.h), 0 in a field that a call does not use.
ghost use Rattle.std.specs.Prelude.{◌≡◌, cond, eqb};
ghost use Rattle.blocks.specs.Layout.{filled};
ghost use Rattle.records.specs.Refusals.{refusal_of};
ghost use Rattle.in656.specs.Results.Result.{zeros, saying, refusing, with_contents, with_written, with_place, with_number, with_count, with_lost, with_record};

use blocks::layout::{Put, save};
use records::refusals::{Refusal, number_of, place_of};

// The last fields of the header's structure, in their order: later libraries of the edition fill them.
#[repr(C)]
#[derive(Clone, Copy)]
pub struct Later {
    pub sum: u32,
    pub found: u32,
    pub unsent: u32,
    pub reserved1: u32,
    pub reserved2: u32,
    pub reserved3: u32,
    pub reserved4: u32,
    pub reserved5: u32,
}

// The fields of the header's structure, in their order; filled is its `record`.
#[repr(C)]
#[derive(Clone, Copy)]
pub struct In656Result {
    pub refusal: u32,
    pub outcome: u32,
    pub detail: u32,
    pub contents: u32,
    pub place: u64,
    pub written: u64,
    pub number: u32,
    pub count: u32,
    pub lost: u32,
    pub filled: u32,
    pub later: Later,
}

// A call that is done and has no more to say.
pub fn done() -> In656Result
    ensures { result ≡ zeros }
{
    In656Result {
        refusal: 0,
        outcome: 0,
        detail: 0,
        contents: 0,
        place: 0,
        written: 0,
        number: 0,
        count: 0,
        lost: 0,
        filled: 0,
        later: Later {
            sum: 0,
            found: 0,
            unsent: 0,
            reserved1: 0,
            reserved2: 0,
            reserved3: 0,
            reserved4: 0,
            reserved5: 0,
        },
    }
}

// An outcome and more of it.
// Outcome and detail are two fields of the header's structure.
pub(crate) fn say(outcome: u32, detail: u32) -> In656Result
    ensures { result ≡ saying outcome detail }
{
    In656Result {
        outcome,
        detail,
        ..done()
    }
}

// A refused call.
// A function and no From: it is passed on by its name, which says that the call is refused.
pub fn refuse(refusal: Refusal) -> In656Result
    ensures { result ≡ refusing (refusal_of refusal) }
{
    let place = place_of(refusal) as u64;
    In656Result {
        refusal: u32::from(number_of(refusal)),
        place,
        ..done()
    }
}

// The state behind a call is saved where it is not refused.
// By the header's number, since the answers of the calls have no one type.
pub(crate) fn keep<T: Put>(r: In656Result, end: T, state: &mut [u8])
    ensures { state.new ≡ cond (eqb r.refusal 0) (filled T.LENGTH (T.bytes_of end) state.old) state.old }
{
    if r.refusal == 0 {
        save(end, state);
    }
}

// Each method sets a field and converts what it takes: one method for all would take a closure.
impl In656Result {
    // The refusal of a frame that was heard.
    pub(crate) fn with_contents(self, refusal: Refusal) -> In656Result
        ensures { result ≡ with_contents self (refusal_of refusal) }
    {
        In656Result {
            contents: u32::from(number_of(refusal)),
            place: place_of(refusal) as u64,
            ..self
        }
    }

    // How many bytes were written, or how many a telegram has.
    pub(crate) fn with_written(self, n: usize) -> In656Result
        ensures { result ≡ with_written self n }
    {
        In656Result {
            written: n as u64,
            ..self
        }
    }

    // Where in the bytes a telegram or a record of a log was found.
    pub(crate) fn with_place(self, place: usize) -> In656Result
        ensures { result ≡ with_place self place }
    {
        In656Result {
            place: place as u64,
            ..self
        }
    }

    // The telegram's number.
    pub(crate) fn with_number(self, number: u8) -> In656Result
        ensures { result ≡ with_number self number }
    {
        In656Result {
            number: u32::from(number),
            ..self
        }
    }

    // The master's sending count.
    pub(crate) fn with_count(self, count: u8) -> In656Result
        ensures { result ≡ with_count self count }
    {
        In656Result {
            count: u32::from(count),
            ..self
        }
    }

    // Whether the call noted the line lost.
    pub(crate) fn with_lost(self, lost: bool) -> In656Result
        ensures { result ≡ with_lost self lost }
    {
        In656Result {
            lost: u32::from(lost),
            ..self
        }
    }

    // The record block is filled.
    pub(crate) fn with_record(self) -> In656Result
        ensures { result ≡ with_record self }
    {
        In656Result { filled: 1, ..self }
    }
}
