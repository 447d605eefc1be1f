// Reading the record of a log that begins at a place (rules Q3 to Q5).
ghost use Rattle.std.specs.Prelude.{◌≡◌, ◌+◌, ◌<◌, ◌^◌, length};
ghost use Rattle.logs.specs.Reader.{next_of, known_in, record_in, record_at, bytes_of};

use crate::marks::{Mark, mark_of, may_have};
use characters::slices::part;
use records::refusals::Refusal;
use text::fours::four_said;

// Mark, time and length before a record's bytes.
pub const HEAD: usize = 7;

// A record of a log: its bytes go from start to end, where the next begins.
#[derive(Clone, Copy)]
pub struct Entry {
    pub mark: Mark,
    pub time: u32,
    pub start: usize,
    pub end: usize,
}

// What stands at a place of a log: a record; nothing, at the end; or a refusal.
pub type Next = Result<Option<Entry>, Refusal>;

// What is left of a log behind a known mark: under seven bytes is 20, a bad length 19, missing bytes 20.
#[tactic(auto, unfolding(crate::specs::Reader::known_in))]
fn known(mark: Mark, rest: &[u8], from: usize) -> Next
    requires { from + length rest.now < 2 ^ 64 }
    ensures { next_of result ≡ known_in mark from rest.now }
{
    if rest.len() < HEAD {
        return Err(Refusal::CutOff(from));
    }
    let n = usize::from(rest[6]);
    if !may_have(mark, n) {
        return Err(Refusal::Length(from));
    }
    if rest.len() - HEAD < n {
        return Err(Refusal::CutOff(from));
    }
    let start = from + HEAD;
    Ok(Some(Entry {
        mark,
        time: four_said(part(rest, 2, 4)),
        start,
        end: start + n,
    }))
}

// What is left of a log from a place on: nothing is the end, one byte 20, a wrong mark 18.
#[tactic(auto, unfolding(crate::specs::Reader::record_in))]
fn record_in(rest: &[u8], from: usize) -> Next
    requires { from + length rest.now < 2 ^ 64 }
    ensures { next_of result ≡ record_in from rest.now }
{
    match rest {
        [] => Ok(None),
        [_] => Err(Refusal::CutOff(from)),
        [left, right, ..] => {
            let Some(mark) = mark_of(*left, *right) else {
                return Err(Refusal::Mark(from));
            };
            known(mark, rest, from)
        }
    }
}

// The record at a place; the end past the log's end.
pub fn next_record(log: &[u8], from: usize) -> Next
    ensures { next_of result ≡ record_at log.now from }
{
    record_in(part(log, from, log.len()), from)
}

// A record's bytes, a part of the log; none where there is no record.
pub fn bytes_of(log: &[u8], next: Next) -> &[u8]
    ensures { result.now ≡ bytes_of (next_of next) log.now }
{
    match next {
        Ok(Some(entry)) => part(log, entry.start, entry.end.saturating_sub(entry.start)),
        _ => &[],
    }
}
