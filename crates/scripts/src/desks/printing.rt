// What a row of the desk prints.
// put_ functions and no Display, as tellings.rt says.
ghost use Rattle.std.specs.Prelude.{◌≡◌};
ghost use Rattle.text.specs.Putting.{puts};
ghost use Rattle.scripts.specs.Desks.Printing.{numbers_text, starts_text, wanted_text, waiting_text, queue_text, whole_text};

use crate::ends::State;
use crate::printing::{begin, end, first, number, put_behind};
use desk::state::{Desk, Waiting};
use records::records::Record;
use text::putting::{put_byte, put_text};

// Line, last number taken, queued records.
impl State for Desk {
    ghost numbers = { λ d. numbers_text d.good d.last.0 d.queued };

    fn put_numbers(&self, out: &mut [u8], at: usize) -> usize {
        end(
            out,
            at,
            self.good,
            b", last ",
            u64::from(self.last.0),
            b", queued ",
            self.queued as u64,
        )
    }
}

// The line, T1's start, the key position and the stored answer.
// The stored answer is an array with its count beside it, as in the desk: fixed memory, no heap.
fn put_starts(out: &mut [u8], at: usize, d: &Desk) -> usize
    ensures { (result, out.new) ≡ puts (starts_text d.now.line d.now.t1 d.now.key d.now.stored d.now.kept) at out.old }
{
    let a = number(out, at, b"line ", u64::from(d.line));
    let b = number(out, a, b", T1 ", u64::from(d.t1));
    let c = put_text(out, b, b", key ");
    let e = put_byte(out, c, d.key);
    first(out, e, b", stored ", &d.stored, d.kept)
}

// The record set for r.
fn put_wanted(out: &mut [u8], at: usize, wanted: Option<Record>) -> usize
    ensures { (result, out.new) ≡ puts (wanted_text wanted) at out.old }
{
    match wanted {
        None => at,
        Some(rec) => put_behind(out, at, b", set ", rec),
    }
}

// A record that waits in the queue.
fn put_waiting(out: &mut [u8], at: usize, waiting: Waiting) -> usize
    ensures { (result, out.new) ≡ puts (waiting_text waiting) at out.old }
{
    put_behind(out, at, b", waits ", waiting.rec)
}

// The records of the queue.
// The count stands beside the queue, as in the desk: fixed memory, no heap; an altered count may be more than the places are.
fn put_queue(out: &mut [u8], at: usize, queue: &[Waiting; 8], queued: usize) -> usize
    ensures { (result, out.new) ≡ puts (queue_text queued queue.now) at out.old }
{
    let mut place = at;
    for waiting in &queue[..queued.min(8)] {
        place = put_waiting(out, place, *waiting);
    }
    place
}

// The whole state: its numbers, the record set for r and those that wait.
pub(crate) fn put_whole(out: &mut [u8], row: &[u8], d: &Desk) -> usize
    ensures { (result, out.new) ≡ puts (whole_text row.now d.now) 0 out.old }
{
    let a = begin(out, row);
    let b = put_starts(out, a, d);
    let c = put_wanted(out, b, d.requested);
    let e = put_queue(out, c, &d.queue, d.queued);
    d.put_numbers(out, e)
}
