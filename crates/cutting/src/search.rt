// The search for the next telegram over a lent slice (rules C7, C9).
ghost use Rattle.std.specs.Prelude.{◌≡◌, ◌-◌, ◌≤◌, ◌<◌, length, MatchOption};
ghost use Rattle.cutting.specs.Looks.{NextCr, NearLf};
ghost use Rattle.cutting.specs.Search.{found_of, span_of, part_of, offset_part};

use characters::marks::{CR, LF, UNFINISHED};
use characters::slices::part;

// Where a telegram lies: its LF at start, its CR before end.
#[derive(Clone, Copy)]
pub struct Span {
    pub start: usize,
    pub end: usize,
}

// Where the next CR stands from a place on.
// By index, here and in near_lf: a position in the slice from there is added to the place, which costs each byte of a quiet capture a third more time.
fn next_cr(s: &[u8], from: usize) -> Option<usize>
    requires { from ≤ length s.now }
    ensures { MatchOption result (NextCr s.now from (length s.now)) (λ i. (i < length s.now) × NextCr s.now from i) }
{
    let n = s.len();
    for i in from..n {
        if s[i] == CR {
            return Some(i);
        }
    }
    None
}

// Where the nearest LF stands before end, at most 65 bytes back and not before a place.
// s and its places stay arguments, here and below: the places that are answered count from the front of s, which a slice from there would lose.
fn near_lf(s: &[u8], from: usize, end: usize) -> Option<usize>
    requires { (from ≤ end) × (end ≤ length s.now) }
    ensures { MatchOption result (NearLf s.now from end 0) (λ start. (start < end) × NearLf s.now from end (end - start)) }
{
    let near = if end - from < UNFINISHED {
        from
    } else {
        end - UNFINISHED
    };
    for i in (near..end).rev() {
        if s[i] == LF {
            return Some(i);
        }
    }
    None
}

// Where the next telegram lies, looking from any place on: at the next CR that has an LF near before it, with no CR between.
pub fn span_of(s: &[u8], from: usize) -> Option<Span>
    ensures { found_of result ≡ span_of s.now from }
{
    // The place jumps from CR to CR, so this is no loop over the bytes.
    let mut place = from;
    while place < s.len() {
        let end = next_cr(s, place)?;
        if let Some(start) = near_lf(s, place, end) {
            return Some(Span {
                start,
                end: end + 1,
            });
        }
        place = end + 1;
    }
    None
}

// The part that a span names, empty where it names none.
pub fn part_of(s: &[u8], span: Option<Span>) -> &[u8]
    ensures { result.now ≡ part_of s.now (found_of span) }
{
    span.map_or(&s[..0], |span| {
        part(s, span.start, span.end.saturating_sub(span.start))
    })
}

// The next telegram as a part of the caller's own bytes, with its offset in at; an empty part at the end where none is left.
// No Option: the clause's offset_part has the length as the offset there.
pub fn next_part<'a>(s: &'a [u8], from: usize, at: &mut usize) -> &'a [u8]
    ensures { (at.new, result.now) ≡ offset_part s.now (span_of s.now from) }
{
    let span = span_of(s, from);
    *at = span.map_or(s.len(), |span| span.start);
    part_of(s, span)
}
