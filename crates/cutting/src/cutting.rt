// The next telegram of a lent slice, cut and then read (rule C9).
ghost use Rattle.std.specs.Prelude.{◌≡◌};
ghost use Rattle.cutting.specs.Cutting.{cutting_of, next_of};

use crate::search::{part_of, span_of};
use forms::lines::is_line;
use reading::reading::read;
use records::answers::Reading;
use records::refusals::Refusal;

// A cut telegram, and what it reads as.
#[derive(Clone, Copy)]
pub struct Cut {
    pub start: usize,
    pub end: usize,
    pub reading: Reading,
}

// The next telegram, cut and read on a line: 15 comes before all.
// s and from stay two, as search says.
pub fn next_reading(line: u8, s: &[u8], from: usize) -> Result<Option<Cut>, Refusal>
    ensures { cutting_of result ≡ next_of line s.now from }
{
    if !is_line(line) {
        return Err(Refusal::State);
    }
    let Some(span) = span_of(s, from) else {
        return Ok(None);
    };
    Ok(Some(Cut {
        start: span.start,
        end: span.end,
        reading: read(line, part_of(s, Some(span))),
    }))
}
