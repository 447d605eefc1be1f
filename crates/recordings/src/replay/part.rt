// The rows of a slice's records, as many as there is room for.
// put_ functions and no Display, as printing.rt says. captures::part walks alike over telegrams, but a record may also wait for bytes, or end the replay.
ghost use Rattle.std.specs.Prelude.{◌≡◌, ◌==◌, ◌≤◌, length};
ghost use Rattle.records.specs.Refusals.{refusal_of};
ghost use Rattle.text.specs.Putting.{puts};
ghost use Rattle.recordings.specs.Replay.Texts.{row_room, refused_text};
ghost use Rattle.recordings.specs.Replay.Part.{goes_on, put, refused_put, next_put, part_of};
ghost use Rattle.recordings.specs.declared.replay.part.Stop.TheVariants.{Goes};

use crate::replay::printing::Opening;
use crate::replay::rows::{Rowed, put_row};
use crate::replay::state::Replayer;
use desk::state::Desk;
use logs::reader::{bytes_of, next_record};
use records::refusals::{Refusal, number_of};
use text::items::put_no;
use text::putting::put_byte;

// Room for any row.
pub const ROW_ROOM: usize = 1024;

// A row is put; or there is no room for one; or what follows may change what stands there; or the replay is over. No Result: a replay that stops has its place and
// rows all the same.
#[derive(Clone, Copy)]
pub enum Stop {
    Goes,
    Full,
    Waits,
    Over,
}

// The desk behind a record, where the next begins, how many bytes its row has, and how it goes on.
// No scripts::ends::Printed: it says also where the next record begins and how it goes on.
#[derive(Clone, Copy)]
pub struct Put {
    pub desk: Desk,
    pub end: usize,
    pub length: usize,
    pub stop: Stop,
}

fn goes(stop: Stop) -> bool
    ensures { result ≡ goes_on stop }
{
    matches!(stop, Stop::Goes)
}

// The last row, of a refusal.
// A number and an offset, and no Refusal: the offset counts from the log's first byte, a Refusal's place from the slice's.
pub(crate) fn put_refused(out: &mut [u8], number: u8, offset: u64) -> usize
    ensures { (result, out.new) ≡ puts (refused_text number offset) 0 out.old }
{
    let a = put_no(out, 0, number, offset as usize);
    put_byte(out, a, b'\n')
}

// Whether a refusal is 20.
fn is_cut_off(refusal: Refusal) -> bool
    ensures { result ≡ ((refusal_of refusal).number == 20) }
{
    matches!(refusal, Refusal::CutOff(_))
}

// A record that is refused: 20 waits for bytes that may follow, any other refusal ends the replay.
fn refused(desk: Desk, refusal: Refusal, offset: u64, from: usize, out: &mut [u8]) -> Put
    requires { row_room ≤ length out.old }
    ensures { ((result, out.new) ≡ refused_put desk (refusal_of refusal).number offset from out.old) × (result.length ≤ row_room) }
{
    if is_cut_off(refusal) {
        return Put {
            desk,
            end: from,
            length: 0,
            stop: Stop::Waits,
        };
    }
    let length = put_refused(out, number_of(refusal), offset);
    Put {
        desk,
        end: from,
        length,
        stop: Stop::Over,
    }
}

// A record that is found.
fn rowed(rowed: Rowed, end: usize) -> Put
    ensures { result ≡ put rowed.desk end rowed.length Goes }
{
    Put {
        desk: rowed.desk,
        end,
        length: rowed.length,
        stop: Stop::Goes,
    }
}

// The record at a place, from the front of an output with room for any row.
fn put_next(desk: Desk, ordinal: u64, offset: u64, s: &[u8], from: usize, out: &mut [u8]) -> Put
    requires { row_room ≤ length out.old }
    ensures { ((result, out.new) ≡ next_put desk ordinal offset s.now from out.old) × (result.length ≤ row_room) }
{
    let next = next_record(s, from);
    match next {
        Ok(Some(entry)) => {
            let opening = Opening {
                ordinal,
                offset,
                time: entry.time,
            };
            let row = put_row(desk, entry.mark, opening, bytes_of(s, next), out);
            rowed(row, entry.end)
        }
        Ok(None) => Put {
            desk,
            end: from,
            length: 0,
            stop: Stop::Waits,
        },
        Err(refusal) => refused(desk, refusal, offset, from, out),
    }
}

// How far a replay got: the desk, the ordinal and the place of what comes next, how many bytes of rows there are, and why it stopped.
#[derive(Clone, Copy)]
pub struct Replayed {
    pub desk: Desk,
    pub ordinal: u64,
    pub next: usize,
    pub filled: usize,
    pub stop: Stop,
}

// The rows of the records of s, whose first byte has the offset of the state.
pub(crate) fn replay_part(replayer: Replayer, s: &[u8], out: &mut [u8]) -> Replayed
    ensures { (result, out.new) ≡ part_of replayer.desk replayer.ordinal replayer.base s.now out.old }
{
    let mut at = Replayed {
        desk: replayer.desk,
        ordinal: replayer.ordinal,
        next: 0,
        filled: 0,
        stop: Stop::Full,
    };
    // No `for`: each record begins where the one before ends, and the output's room decides too.
    while ROW_ROOM <= out.len() - at.filled {
        let offset = std::num::wrapping_add_u64(replayer.base, at.next as u64);
        let end = at.filled + ROW_ROOM;
        let put = put_next(
            at.desk,
            at.ordinal,
            offset,
            s,
            at.next,
            &mut out[at.filled..end],
        );
        at.filled = at.filled + put.length;
        if !goes(put.stop) {
            return Replayed {
                stop: put.stop,
                ..at
            };
        }
        at.desk = put.desk;
        at.next = put.end;
        at.ordinal = std::num::wrapping_add_u64(at.ordinal, 1);
    }
    at
}
