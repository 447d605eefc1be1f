// The lines of a lent slice, and what is kept of it for the next piece of a capture (rules P2, P5).
ghost use Rattle.std.specs.Prelude.{◌≡◌};
ghost use Rattle.captures.specs.Part.{next_of, next_line_of, list_part, kept_from};

use crate::lister::Lister;
use crate::listing::put_line;
use characters::marks::UNFINISHED;
use cutting::search::{part_of, span_of};
use reading::reading::read;
use records::refusals::Refusal;

// A telegram's line: where the telegram ends, and how many bytes the line has.
#[derive(Clone, Copy)]
struct Line {
    end: usize,
    len: usize,
}

// The line of the next telegram, from the front of an output; None where no telegram is left.
// No Display, as text::putting says.
#[tactic(auto, unfolding(crate::specs::Part::next_line_of))]
fn put_next(lister: Lister, s: &[u8], out: &mut [u8]) -> Result<Option<Line>, Refusal>
    ensures { (next_of result, out.new) ≡ next_line_of lister.line lister.ordinal lister.base s.now lister.next out.old }
{
    let found = span_of(s, lister.next);
    let Some(span) = found else {
        return Ok(None);
    };
    let offset = std::num::wrapping_add_u64(lister.base, span.start as u64);
    let len = put_line(
        lister.ordinal,
        offset,
        read(lister.line, part_of(s, found)),
        out,
    )?;
    Ok(Some(Line { end: span.end, len }))
}

// How far a listing got: the place and ordinal of what comes next, how many bytes of lines there are, and whether no telegram is left. No Option by `done`, since
// the other fields hold either way.
#[derive(Clone, Copy)]
pub struct Listed {
    pub next: usize,
    pub ordinal: u64,
    pub filled: usize,
    pub done: bool,
}

// The lines of the telegrams from the state's place on, as many as there is room for.
// recordings' replay_part has this form, but carries a desk and stops in four ways: what both share is the loop.
pub(crate) fn list_part(lister: Lister, s: &[u8], out: &mut [u8]) -> Listed
    ensures { (result, out.new) ≡ list_part lister.line lister.ordinal lister.base s.now lister.next out.old }
{
    let mut at = lister;
    let mut filled: usize = 0;
    // No `for`: each telegram is searched from the end of the one before, and a line without room ends the loop too.
    while let Ok(found) = put_next(at, s, &mut out[filled..]) {
        let Some(line) = found else {
            return Listed {
                next: at.next,
                ordinal: at.ordinal,
                filled,
                done: true,
            };
        };
        at.next = line.end;
        at.ordinal = std::num::wrapping_add_u64(at.ordinal, 1);
        filled = filled + line.len;
    }
    Listed {
        next: at.next,
        ordinal: at.ordinal,
        filled,
        done: false,
    }
}

// Where the bytes begin that are kept for the next piece: behind the last telegram, and an unfinished one has at most 65.
pub fn kept_from(end: usize, len: usize) -> usize
    ensures { result ≡ kept_from end len }
{
    end.max(len.saturating_sub(UNFINISHED))
}
