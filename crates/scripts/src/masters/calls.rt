// Which call a row of the master names.
ghost use Rattle.std.specs.Prelude.{◌≡◌};
ghost use Rattle.scripts.specs.Masters.Calls.{alter_numbered, call_numbered, sends_numbered, well_numbered, call_word, field_word, call_of};

use crate::meanings::named;
use crate::numbers::are_numbers;

// The calls that may send. The cases of this and of Field and Call are the master's own, as the desk's are the desk's:
// one type for both ends would have calls that one of them lacks, and each match below would have to refuse them.
// A row's word chooses among them in a match, for the reason that the desk's calls.rt says.
#[derive(Clone, Copy)]
pub enum Sends {
    Tick,
    Offer,
    Hear,
}

// The numbers of the state that a row may alter.
#[derive(Clone, Copy)]
pub enum Field {
    Line,
    Number,
    Count,
    Operation,
}

// Unknown is a case beside the others, and not None: such a row prints a text of its own, as one of each call does.
#[derive(Clone, Copy)]
pub enum Call {
    Start,
    Sends(Sends),
    Alter(Field),
    Due,
    Show,
    Unknown,
}

// The field that a row alters; a row that alters none names no call.
fn alter_named(row: &[u8]) -> Call
    ensures { result ≡ alter_numbered (field_word row.now) }
{
    named(
        row,
        2,
        b"line number count operation",
        &[
            Call::Alter(Field::Line),
            Call::Alter(Field::Number),
            Call::Alter(Field::Count),
            Call::Alter(Field::Operation),
        ],
    )
    .unwrap_or(Call::Unknown)
}

// The call that a row names, whatever its numbers are.
fn call_named(row: &[u8]) -> Call
    ensures { result ≡ call_numbered (call_word row.now) (field_word row.now) }
{
    named(
        row,
        1,
        b"start tick offer hear alter show due",
        &[
            Call::Start,
            Call::Sends(Sends::Tick),
            Call::Sends(Sends::Offer),
            Call::Sends(Sends::Hear),
            alter_named(row),
            Call::Show,
            Call::Due,
        ],
    )
    .unwrap_or(Call::Unknown)
}

// Whether the words behind time and room that a call takes as numbers are numbers.
fn sends_numbered(sends: Sends, row: &[u8]) -> bool
    ensures { result ≡ sends_numbered sends row.now }
{
    match sends {
        Sends::Offer => are_numbers(row, 5, 15),
        Sends::Tick | Sends::Hear => true,
    }
}

// Whether all words that a call takes as numbers are numbers.
fn well_numbered(call: Call, row: &[u8]) -> bool
    ensures { result ≡ well_numbered call row.now }
{
    match call {
        Call::Start => are_numbers(row, 2, 4),
        Call::Sends(sends) => are_numbers(row, 2, 4) && sends_numbered(sends, row),
        Call::Alter(_) => are_numbers(row, 3, 4),
        Call::Due => are_numbers(row, 2, 3),
        Call::Show | Call::Unknown => true,
    }
}

// A row with a number that is none names no call.
#[tactic(auto, unfolding(crate::specs::Masters::Calls::call_of, crate::specs::Masters::Calls::named_by))]
pub fn call_of(row: &[u8]) -> Call
    ensures { result ≡ call_of row.now }
{
    let call = call_named(row);
    if well_numbered(call, row) {
        call
    } else {
        Call::Unknown
    }
}
