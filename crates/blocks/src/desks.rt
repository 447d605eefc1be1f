// A desk as a block: line, good, last number, key, T1's start, kept, queued, whether a record is set, the stored bytes, the record set
// for r and the places of the queue (rules F7, F8).
// put_ functions and no Display, as layout.rt says. Arrays have their count beside them: fixed memory, no heap.
ghost use Rattle.std.specs.Prelude.{◌≡◌, length};
ghost use Rattle.laws.specs.Truth.{pad};
ghost use Rattle.characters.specs.Marks.{longest};
ghost use Rattle.desk.specs.State.{fresh};
ghost use Rattle.text.specs.Putting.{puts};
ghost use Rattle.blocks.specs.Record.{record_length};
ghost use Rattle.blocks.specs.Desks.{waiting_bytes, waiting_at, set_byte, wanted_bytes, wanted_at, count_bytes, kept_length, kept_bytes, desk_length, desk_bytes, desk_at, load_of};

use crate::heads::{count_byte, put_head};
use crate::layout;
use crate::layout::{Loaded, Put, Take, put_each, take_each};
use crate::record::RECORD_LENGTH;
use characters::marks::LONGEST;
use characters::slices::{byte_at, copy, part};
use clock::counters::LastTaken;
use desk::state::Desk;
use desk::waiting::Waiting;
use records::records::Record;
use text::fours::{four_said, put_four};
use text::putting::{put_byte, put_text};

// The places of the queue.
const PLACES: usize = 8;

// Where the stored bytes begin.
const STORED: usize = 11;

// Where the record set for r begins.
const WANTED: usize = STORED + LONGEST;

// Where the queue begins.
const QUEUE: usize = WANTED + RECORD_LENGTH;

// All bytes of a desk's block.
pub const DESK_LENGTH: usize = QUEUE + PLACES * RECORD_LENGTH;

// A place of the queue is its record.
impl Put for Waiting {
    const LENGTH: usize = RECORD_LENGTH;

    ghost LENGTH = { record_length };

    ghost bytes_of = { waiting_bytes };

    fn put(self, out: &mut [u8], at: usize) -> usize {
        self.rec.put(out, at)
    }
}

impl Take for Waiting {
    ghost made_of = { waiting_at };

    fn take(bytes: &[u8]) -> Waiting {
        Waiting {
            rec: Record::take(bytes),
        }
    }
}

// Whether a record is set, as a byte.
fn set_byte(wanted: Option<Record>) -> u8
    ensures { result ≡ set_byte wanted }
{
    u8::from(wanted.is_some())
}

// Puts the record set for r, and 0 where none is set.
fn put_wanted(out: &mut [u8], at: usize, wanted: Option<Record>) -> usize
    ensures { (result, out.new) ≡ puts (wanted_bytes wanted) at out.old }
{
    match wanted {
        None => put_text(out, at, &[0u8; RECORD_LENGTH]),
        Some(rec) => rec.put(out, at),
    }
}

// The record set for r, where one is set.
#[tactic(auto, unfolding(crate::specs::Desks::wanted_at))]
fn wanted_at(set: u8, block: &[u8]) -> Option<Record>
    ensures { result ≡ wanted_at set block.now }
{
    (set != 0).then(|| Record::take(block))
}

// Puts T1's start, the stored answer's length, the queue's count and whether a record is set.
fn put_counts(out: &mut [u8], at: usize, t1: u32, kept: usize, queued: usize, set: u8) -> usize
    ensures { (result, out.new) ≡ puts (count_bytes t1 kept queued set) at out.old }
{
    let a = put_four(out, at, t1);
    let b = put_byte(out, a, count_byte(kept));
    let c = put_byte(out, b, count_byte(queued));
    put_byte(out, c, set)
}

// Puts the stored bytes, the record set for r and the queue; says their length beside it.
fn put_kept(
    out: &mut [u8],
    at: usize,
    stored: [u8; LONGEST],
    wanted: Option<Record>,
    queue: [Waiting; PLACES],
) -> usize
    ensures { ((result, out.new) ≡ puts (kept_bytes stored wanted queue) at out.old) × (length (kept_bytes stored wanted queue) ≡ kept_length) }
{
    let a = put_text(out, at, &stored);
    let b = put_wanted(out, a, wanted);
    put_each(out, b, &queue)
}

impl Put for Desk {
    const LENGTH: usize = DESK_LENGTH;

    ghost LENGTH = { desk_length };

    ghost bytes_of = { desk_bytes };

    fn put(self, out: &mut [u8], at: usize) -> usize {
        let a = put_head(out, at, self.line, self.good, self.last.0, self.key);
        let set = set_byte(self.requested);
        let b = put_counts(out, a, self.t1, self.kept, self.queued, set);
        put_kept(out, b, self.stored, self.requested, self.queue)
    }
}

// As many bytes as a telegram may have, 0 behind those that are there.
// By hand: no conversion of the library fills up with 0.
fn telegram_in(s: &[u8]) -> [u8; LONGEST]
    ensures { result ≡ pad longest s.now }
{
    let mut bytes = [0u8; LONGEST];
    copy(part(s, 0, LONGEST), &mut bytes);
    bytes
}

impl Take for Desk {
    ghost made_of = { desk_at };

    #[tactic(auto, unfolding(crate::specs::Desks::desk_at))]
    fn take(bytes: &[u8]) -> Desk {
        Desk {
            line: byte_at(bytes, 0),
            good: byte_at(bytes, 1) == 1,
            last: LastTaken(byte_at(bytes, 2)),
            t1: four_said(part(bytes, 4, 4)),
            kept: usize::from(byte_at(bytes, 8)),
            stored: telegram_in(part(bytes, STORED, LONGEST)),
            requested: wanted_at(byte_at(bytes, 10), part(bytes, WANTED, RECORD_LENGTH)),
            queued: usize::from(byte_at(bytes, 9)),
            queue: take_each(part(bytes, QUEUE, PLACES * RECORD_LENGTH)),
            key: byte_at(bytes, 3),
        }
    }
}

// The blank desk of line 0, which every call refuses 15.
impl Loaded for Desk {
    ghost blank = { fresh 0 };

    fn blank() -> Desk {
        Desk::start(0).desk
    }
}

// The desk of a block; the blank one where the bytes are no desk's.
// No Option: load_of promises the blank desk (docs/PROMISES.md, desks::load).
pub fn load(block: &[u8]) -> Desk
    ensures { result ≡ load_of block.now }
{
    layout::load::<Desk, DESK_LENGTH>(block)
}
