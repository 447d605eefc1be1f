// Reading and writing a log record.
// Parameters and tests of lengths and lines are as lib.rt says.
ghost use Rattle.std.specs.Prelude.{◌≡◌};
ghost use Rattle.in656.specs.Logs.{mark_in, log_read_call, log_write_call};

use crate::results::log::{HIT, MASTER, SLAVE};
use crate::results::result::{In656Result, refuse};
use logs::marks::Mark;
use logs::reader::next_record;
use logs::writer::write_record;
use records::refusals::Refusal;

// The mark of a number.
// No TryFrom: the mark is a type of another crate, and the numbers are the header's.
#[tactic(auto, unfolding(crate::specs::Logs::mark_in))]
fn mark_in(number: u32) -> Option<Mark>
    ensures { result ≡ mark_in number }
{
    match number {
        MASTER => Some(Mark::Master),
        SLAVE => Some(Mark::Slave),
        HIT => Some(Mark::Hit),
        _ => None,
    }
}

#[unsafe(no_mangle)]
pub extern "C" fn in656_log_read(log: &[u8], from: usize) -> In656Result
    ensures { result ≡ log_read_call log.now from }
{
    In656Result::from(next_record(log, from))
}

#[unsafe(no_mangle)]
pub extern "C" fn in656_log_write(mark: u32, time: u32, bytes: &[u8], out: &mut [u8]) -> In656Result
    ensures { (result, out.new) ≡ log_write_call mark time bytes.now out.old }
{
    match mark_in(mark) {
        Some(known) => In656Result::from(write_record(known, time, bytes, out)),
        None => refuse(Refusal::Mark(0)),
    }
}
