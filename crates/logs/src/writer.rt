// Writing a log record (rules Q7, Q8).
ghost use Rattle.std.specs.Prelude.{◌≡◌, ◌<◌, length};
ghost use Rattle.records.specs.Answers.{outcome_of};
ghost use Rattle.text.specs.Putting.{puts};
ghost use Rattle.logs.specs.Records.{log_record, record_bytes};
ghost use Rattle.logs.specs.Writer.{write_of};

use crate::marks::{Mark, mark_bytes, may_have};
use crate::reader::HEAD;
use records::refusals::Refusal;
use text::fours::put_four;
use text::putting::{put_byte, put_text};

// A record's bytes one behind the other from the front of an output.
// No Display: bytes of a log. Mark, time and bytes stay arguments: these two functions alone take them.
fn put_record(mark: Mark, time: u32, bytes: &[u8], out: &mut [u8]) -> usize
    requires { length bytes.now < 256 }
    ensures { (result, out.new) ≡ puts (record_bytes (log_record mark time bytes.now)) 0 out.old }
{
    let a = put_text(out, 0, &mark_bytes(mark));
    let b = put_four(out, a, time);
    let c = put_byte(out, b, bytes.len() as u8);
    put_text(out, c, bytes)
}

// Writes a record to the front of an output: 19, then 14; a refused call writes nothing.
#[tactic(auto, using(crate::proofs::Written::byte_long), unfolding(crate::specs::Writer::write_of))]
pub fn write_record(mark: Mark, time: u32, bytes: &[u8], out: &mut [u8]) -> Result<usize, Refusal>
    ensures { (outcome_of result, out.new) ≡ write_of (log_record mark time bytes.now) out.old }
{
    if !may_have(mark, bytes.len()) {
        return Err(Refusal::Length(0));
    }
    if out.len() < HEAD + bytes.len() {
        return Err(Refusal::NoRoom);
    }
    Ok(put_record(mark, time, bytes, out))
}
