// One line of the listing (rules P2, P10).
ghost use Rattle.std.specs.Prelude.{◌≡◌, ◌≤◌, length};
ghost use Rattle.records.specs.Answers.{answer_of, outcome_of};
ghost use Rattle.text.specs.Putting.{puts};
ghost use Rattle.captures.specs.Listing.{answer_text, answer_room, line_put};

use records::answers::{Numbered, Reading};
use records::records::type_of;
use records::refusals::{Refusal, number_of, place_of};
use text::items::put_no;
use text::numbers::put_number;
use text::putting::{put_byte, put_text};

// Room for any line: four numbers of at most 20 digits, and 7 other bytes.
pub const LINE_ROOM: usize = 87;

// What a telegram reads as: `ok`, type, number, or `no`, refusal, place.
// No Display, as text::putting says. cases and scenes have a reading in other words.
fn put_answer(out: &mut [u8], at: usize, reading: Reading) -> usize
    ensures { ((result, out.new) ≡ puts (answer_text (answer_of reading)) at out.old) × (length (answer_text (answer_of reading)) ≤ answer_room) }
{
    match reading {
        Ok(Numbered { rec, number }) => {
            let a = put_text(out, at, b" ok ");
            let b = put_byte(out, a, type_of(rec));
            let c = put_byte(out, b, b' ');
            let d = put_number(out, c, number as u64);
            put_byte(out, d, b'\n')
        }
        Err(refusal) => {
            let a = put_byte(out, at, b' ');
            let b = put_no(out, a, number_of(refusal), place_of(refusal));
            put_byte(out, b, b'\n')
        }
    }
}

// A telegram's line from the front of an output, with what lies behind it kept; an output without room for any line is refused 14.
// Ordinal and offset stay two: recordings' rows, which begin with them too, have a time behind them (Opening).
pub fn put_line(
    ordinal: u64,
    offset: u64,
    reading: Reading,
    out: &mut [u8],
) -> Result<usize, Refusal>
    ensures { (outcome_of result, out.new) ≡ line_put ordinal offset (answer_of reading) out.old }
{
    if out.len() < LINE_ROOM {
        return Err(Refusal::NoRoom);
    }
    let a = put_number(out, 0, ordinal);
    let b = put_byte(out, a, b' ');
    let c = put_number(out, b, offset);
    Ok(put_answer(out, c, reading))
}
