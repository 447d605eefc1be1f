// What a row of the master prints.
// put_ functions and no Display, as tellings.rt says.
ghost use Rattle.std.specs.Prelude.{◌≡◌};
ghost use Rattle.text.specs.Putting.{puts};
ghost use Rattle.scripts.specs.Masters.Printing.{numbers_text, starts_text, busy_text, whole_text};

use crate::ends::State;
use crate::printing::{begin, end, number, put_behind, put_either};
use master::state::Master;

// Line, number to send, sending count.
impl State for Master {
    ghost numbers = { λ m. numbers_text m.good m.number.0 m.count };

    fn put_numbers(&self, out: &mut [u8], at: usize) -> usize {
        end(
            out,
            at,
            self.good,
            b", number ",
            u64::from(self.number.0),
            b", count ",
            u64::from(self.count),
        )
    }
}

// The line, T0's start, and the key position by which T0 is.
fn put_starts(out: &mut [u8], at: usize, m: &Master) -> usize
    ensures { (result, out.new) ≡ puts (starts_text m.now.line m.now.t0 m.now.operation) at out.old }
{
    let a = number(out, at, b"line ", u64::from(m.line));
    let b = number(out, a, b", T0 ", u64::from(m.t0));
    put_either(out, b, m.operation, b", operation", b"")
}

// While it is not free, T2's start and what is sent.
fn put_busy(out: &mut [u8], at: usize, m: &Master) -> usize
    ensures { (result, out.new) ≡ puts (busy_text m.now.count m.now.t2 m.now.rec) at out.old }
{
    if m.count == 0 {
        return at;
    }
    let a = number(out, at, b", T2 ", u64::from(m.t2));
    put_behind(out, a, b", sends ", m.rec)
}

// The whole state.
pub(crate) fn put_whole(out: &mut [u8], row: &[u8], m: &Master) -> usize
    ensures { (result, out.new) ≡ puts (whole_text row.now m.now) 0 out.old }
{
    let a = begin(out, row);
    let b = put_starts(out, a, m);
    let c = put_busy(out, b, m);
    m.put_numbers(out, c)
}
