// Which records and key positions may answer on a line (rules D2, D3, E10).
ghost use Rattle.std.specs.Prelude.{◌≡◌};
ghost use Rattle.desk.specs.Fitting.{may_reply, key_fits, wanted_fits};

use forms::lines::{is_key, line_of};
use forms::table::data_type;
use records::records::{Record, type_of};
use values::values::permits_record;

// Whether a record is of the slave's data type on a line, with permitted values.
// The master's may_send begins with another test: permits_record is what both share. Line and record stay apart, as it says.
#[tactic(auto, unfolding(crate::specs::Fitting::may_reply))]
pub(crate) fn may_reply(line: u8, rec: Record) -> bool
    ensures { result ≡ may_reply line rec }
{
    type_of(rec) == data_type(line) && permits_record(line, rec)
}

// Whether a key position is one of a line: A, X or Y where A carries it, else A.
#[tactic(auto, unfolding(crate::specs::Fitting::key_fits))]
pub(crate) fn key_fits(line: u8, key: u8) -> bool
    ensures { result ≡ key_fits line key }
{
    if line_of(line).keyed {
        is_key(key)
    } else {
        key == b'A'
    }
}

// Whether a requested record may answer r on a line.
#[tactic(auto, unfolding(crate::specs::Fitting::wanted_fits))]
pub(crate) fn wanted_fits(line: u8, wanted: Option<Record>) -> bool
    ensures { result ≡ wanted_fits line wanted }
{
    wanted.is_none_or(|rec| may_reply(line, rec))
}
