// Which call a row of the desk names.
ghost use Rattle.std.specs.Prelude.{◌≡◌};
ghost use Rattle.scripts.specs.Desks.Calls.{alter_numbered, call_numbered, quiet_numbered, well_numbered, call_word, field_word, call_of};

use crate::meanings::named;
use crate::numbers::are_numbers;

// The calls that hear nothing. A row's word chooses among the cases of this and of Field and Call, which the specs name too:
// a function in the place of each case would be handed out by call_of, and the project allows no such function.
#[derive(Clone, Copy)]
pub enum Quiet {
    Start,
    Tick,
    Queue,
    Set,
    Key,
    ClearQueue,
    ClearSet,
}

// The numbers of the state that a row may alter.
#[derive(Clone, Copy)]
pub enum Field {
    Line,
    Good,
    Last,
    Kept,
    Queued,
    Key,
}

// Unknown is a case beside the others, and not None: such a row prints a text of its own, as one of each call does.
#[derive(Clone, Copy)]
pub enum Call {
    Quiet(Quiet),
    Hear,
    Alter(Field),
    Due,
    Show,
    Unknown,
}

// The field that a row alters; a row that alters none names no call.
fn alter_named(row: &[u8]) -> Call
    ensures { result ≡ alter_numbered (field_word row.now) }
{
    named(
        row,
        2,
        b"line good last kept queued key",
        &[
            Call::Alter(Field::Line),
            Call::Alter(Field::Good),
            Call::Alter(Field::Last),
            Call::Alter(Field::Kept),
            Call::Alter(Field::Queued),
            Call::Alter(Field::Key),
        ],
    )
    .unwrap_or(Call::Unknown)
}

// The call that a row names, whatever its numbers are.
fn call_named(row: &[u8]) -> Call
    ensures { result ≡ call_numbered (call_word row.now) (field_word row.now) }
{
    named(
        row,
        1,
        b"start tick queue set key hear alter show clear_queue clear_set due",
        &[
            Call::Quiet(Quiet::Start),
            Call::Quiet(Quiet::Tick),
            Call::Quiet(Quiet::Queue),
            Call::Quiet(Quiet::Set),
            Call::Quiet(Quiet::Key),
            Call::Hear,
            alter_named(row),
            Call::Show,
            Call::Quiet(Quiet::ClearQueue),
            Call::Quiet(Quiet::ClearSet),
            Call::Due,
        ],
    )
    .unwrap_or(Call::Unknown)
}

// Whether the words that a call that hears nothing takes as numbers are numbers.
fn quiet_numbered(quiet: Quiet, row: &[u8]) -> bool
    ensures { result ≡ quiet_numbered quiet row.now }
{
    match quiet {
        Quiet::Start | Quiet::Tick => are_numbers(row, 2, 3),
        Quiet::Queue | Quiet::Set => are_numbers(row, 3, 13),
        Quiet::Key | Quiet::ClearQueue | Quiet::ClearSet => true,
    }
}

// Whether all words that a call takes as numbers are numbers.
fn well_numbered(call: Call, row: &[u8]) -> bool
    ensures { result ≡ well_numbered call row.now }
{
    match call {
        Call::Quiet(quiet) => quiet_numbered(quiet, row),
        Call::Hear => are_numbers(row, 2, 4),
        Call::Alter(_) => are_numbers(row, 3, 4),
        Call::Due => are_numbers(row, 2, 3),
        Call::Show | Call::Unknown => true,
    }
}

// A row with a number that is none names no call.
#[tactic(auto, unfolding(crate::specs::Desks::Calls::call_of, crate::specs::Desks::Calls::named_by))]
pub fn call_of(row: &[u8]) -> Call
    ensures { result ≡ call_of row.now }
{
    let call = call_named(row);
    if well_numbered(call, row) {
        call
    } else {
        Call::Unknown
    }
}
