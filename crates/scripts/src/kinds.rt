// What a row is of.
ghost use Rattle.std.specs.Prelude.{◌≡◌};
ghost use Rattle.scripts.specs.Kinds.{unnamed_of, elapsed_row, kind_of};

use crate::meanings::named;
use crate::numbers::are_numbers;

// A row of the desk, of the master or of elapsed time; else a comment, or unknown.
// Unknown is a kind beside the others, and not None: such a row prints a text of its own, as one of each kind does.
#[derive(Clone, Copy)]
pub enum Kind {
    Desk,
    Master,
    Elapsed,
    Comment,
    Unknown,
}

// An empty row and one that begins with # are comments.
#[tactic(auto, unfolding(crate::specs::Kinds::unnamed_of))]
fn unnamed(row: &[u8]) -> Kind
    ensures { result ≡ unnamed_of row.now }
{
    match row {
        [] | [b'#', ..] => Kind::Comment,
        _ => Kind::Unknown,
    }
}

// Elapsed time takes two numbers.
#[tactic(auto, unfolding(crate::specs::Kinds::elapsed_row))]
fn elapsed(row: &[u8]) -> Kind
    ensures { result ≡ elapsed_row row.now }
{
    if are_numbers(row, 1, 3) {
        Kind::Elapsed
    } else {
        Kind::Unknown
    }
}

// By the first word.
pub fn kind_of(row: &[u8]) -> Kind
    ensures { result ≡ kind_of row.now }
{
    named(
        row,
        0,
        b"desk master elapsed",
        &[Kind::Desk, Kind::Master, elapsed(row)],
    )
    .unwrap_or_else(|| unnamed(row))
}
