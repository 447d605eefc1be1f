// T0's limit, and what an answer makes of it (rules K4, M18).
ghost use Rattle.std.specs.Prelude.{◌≡◌};
ghost use Rattle.master.specs.Times.{reduces, operation_fits, t0_of, operation_after};

use forms::lines::line_of;
use records::records::Record;

// Whether T0 is reduced on a line so long as no A has said that the key is in position Operation.
#[tactic(auto, unfolding(crate::specs::Times::reduces))]
fn reduces(line: u8) -> bool
    ensures { result ≡ reduces line }
{
    let row = line_of(line);
    row.reduced < row.t0
}

// Whether a line allows a flag: where T0 is never reduced, no A says Operation.
#[tactic(auto, unfolding(crate::specs::Times::operation_fits))]
pub(crate) fn operation_fits(line: u8, operation: bool) -> bool
    ensures { result ≡ operation_fits line operation }
{
    !operation || reduces(line)
}

// T0's limit on a line, by whether the last A that answered t said Operation.
#[tactic(auto, unfolding(crate::specs::Times::t0_of))]
pub(crate) fn t0_of(line: u8, operation: bool) -> u32
    ensures { result ≡ t0_of line operation }
{
    let row = line_of(line);
    if operation { row.t0 } else { row.reduced }
}

// Whether the key is in position Operation, behind a permitted answer to a type: an A that answers t says it with X, and any other value takes it back.
#[tactic(auto, unfolding(crate::specs::Times::operation_after))]
pub(crate) fn operation_after(line: u8, sent: u8, rec: Record, before: bool) -> bool
    ensures { result ≡ operation_after line sent rec before }
{
    match rec {
        Record::Approved(key) if sent == b't' => key == u32::from(b'X') && reduces(line),
        _ => before,
    }
}
