// What a row prints.
// put_ functions and no Display: the bytes of each row are promised one by one, what has no room is dropped, and there is no heap.
ghost use Rattle.std.specs.Prelude.{◌≡◌};
ghost use Rattle.records.specs.Answers.{answer_of};
ghost use Rattle.desk.specs.Answers.{done_of};
ghost use Rattle.desk.specs.Heard.{told_of};
ghost use Rattle.desk.specs.Replying.{origin_of};
ghost use Rattle.text.specs.Putting.{puts};
ghost use Rattle.recordings.specs.Replay.Rows.{opening_text, sent_count, record_named, names, handled_named, did_text, heard_text, ticked_text};

use desk::answers::Outcome;
use desk::heard::Heard;
use desk::replying::Source;
use records::answers::Reading;
use records::refusals::Refusal;
use scripts::printing::first;
use scripts::tellings::desks::{put_answering, put_handling, put_heard, put_outcome};
use text::items::put_record;
use text::numbers::put_number;
use text::putting::{put_byte, put_text};

// What a row opens with: its record's ordinal, offset and time.
#[derive(Clone, Copy)]
pub struct Opening {
    pub ordinal: u64,
    pub offset: u64,
    pub time: u32,
}

// captures::listing::put_line also begins with two numbers, but with no time: what is alike is no longer than two calls.
fn begin(out: &mut [u8], opening: Opening) -> usize
    ensures { (result, out.new) ≡ puts (opening_text opening.ordinal opening.offset opening.time) 0 out.old }
{
    let a = put_number(out, 0, opening.ordinal);
    let b = put_byte(out, a, b' ');
    let c = put_number(out, b, opening.offset);
    let d = put_byte(out, c, b' ');
    let e = put_number(out, d, u64::from(opening.time));
    put_byte(out, e, b' ')
}

// How many bytes a hearing sent.
// 0 is no sign, but the count itself. No From: the name says which number of a hearing this is.
fn sent_count(answer: Result<Heard, Refusal>) -> usize
    ensures { result ≡ sent_count (told_of answer) }
{
    match answer {
        Err(_) | Ok(Heard::Silent(..)) => 0,
        Ok(Heard::Fault(_, n) | Heard::Repeat(n) | Heard::Handled(_, _, n)) => n,
    }
}

// What a telegram reads as, where that is a record.
fn put_read(out: &mut [u8], at: usize, reading: Reading) -> usize
    ensures { (result, out.new) ≡ puts (record_named (answer_of reading)) at out.old }
{
    let Ok(named) = reading else {
        return at;
    };
    let a = put_record(out, at, named.rec);
    put_text(out, a, b", ")
}

// Whether where an answer comes from names what was handled.
fn names(source: Source) -> bool
    ensures { result ≡ names (origin_of source) }
{
    matches!(source, Source::Panel(_))
}

// A handled telegram is named before where its answer comes from, unless that names it.
fn put_handled(
    out: &mut [u8],
    at: usize,
    reading: Reading,
    lost: bool,
    source: Source,
    n: usize,
) -> usize
    ensures { (result, out.new) ≡ puts (handled_named (answer_of reading) lost (origin_of source) n) at out.old }
{
    let a = put_handling(out, at, lost);
    if names(source) {
        return put_answering(out, a, source, n);
    }
    let b = put_read(out, a, reading);
    put_answering(out, b, source, n)
}

// What the desk did with a telegram, in the words of `scenes`.
fn put_did(out: &mut [u8], at: usize, reading: Reading, answer: Result<Heard, Refusal>) -> usize
    ensures { (result, out.new) ≡ puts (did_text (answer_of reading) (told_of answer)) at out.old }
{
    match answer {
        Ok(Heard::Handled(lost, source, n)) => put_handled(out, at, reading, lost, source, n),
        _ => put_heard(out, at, answer),
    }
}

// A sending by the master: what it reads as, what hearing it answers, and the bytes that the desk sends.
// What is sent is the front of a lent array, and the answer says its count: fixed memory, no heap.
pub(crate) fn put_hearing(
    out: &mut [u8],
    opening: Opening,
    reading: Reading,
    answer: Result<Heard, Refusal>,
    sent: &[u8],
) -> usize
    ensures { (result, out.new) ≡ puts (heard_text opening.ordinal opening.offset opening.time (answer_of reading) (told_of answer) sent.now) 0 out.old }
{
    let a = begin(out, opening);
    let b = put_did(out, a, reading, answer);
    let c = first(out, b, b" ", sent, sent_count(answer));
    put_byte(out, c, b'\n')
}

// A hit: what the tick answers.
pub(crate) fn put_ticking(out: &mut [u8], opening: Opening, answer: Outcome) -> usize
    ensures { (result, out.new) ≡ puts (ticked_text opening.ordinal opening.offset opening.time (done_of answer)) 0 out.old }
{
    let a = begin(out, opening);
    let b = put_outcome(out, a, answer);
    put_byte(out, b, b'\n')
}
