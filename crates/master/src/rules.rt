// The poll, failed sendings and the permitted answers (rules M7, M10, M12).
ghost use Rattle.std.specs.Prelude.{◌≡◌};
ghost use Rattle.master.specs.Rules.{poll_of, is_failure, permitted_answer};

use forms::lines::line_of;
use forms::table::data_type;
use records::records::Record;

// The poll of a line: t, or r for the slave's data type.
#[tactic(auto, unfolding(crate::specs::Rules::poll_of))]
pub(crate) fn poll_of(line: u8) -> Record
    ensures { result ≡ poll_of line }
{
    if line_of(line).poll == b'r' {
        Record::Request(data_type(line) as u32)
    } else {
        Record::Idling(b't' as u32)
    }
}

// Whether an answer is N with 1 or 2, a failed sending.
#[tactic(auto, unfolding(crate::specs::Rules::is_failure))]
pub fn is_failure(rec: Record) -> bool
    ensures { result ≡ is_failure rec }
{
    matches!(rec, Record::Rejected(value) if value == u32::from(b'1') || value == u32::from(b'2'))
}

// Whether a type is a permitted answer to a type that was sent on a line.
#[tactic(auto, unfolding(crate::specs::Rules::permitted_answer, crate::specs::Rules::answers_to))]
pub(crate) fn permitted_answer(line: u8, sent: u8, got: u8) -> bool
    ensures { result ≡ permitted_answer line sent got }
{
    match sent {
        b'r' => got == data_type(line) || got == b'N',
        b't' => got == data_type(line) || matches!(got, b'A' | b'N'),
        _ => matches!(got, b'A' | b'N'),
    }
}
