// Reading a telegram (rules W1, W2): 15 before all, then checks 1 to 11 in order, then its record and number.
ghost use Rattle.std.specs.Prelude.{◌≡◌};
ghost use Rattle.records.specs.Answers.{answer_of};
ghost use Rattle.reading.specs.Reading.{in_form, contents_of, reading_of};

use crate::datafield::{bad_value, outside_set, values_in, wrong_form};
use crate::frame::frame_check;
use characters::slices::{byte_at, part};
use forms::lines::is_line;
use forms::rows::Form;
use forms::table::form_of;
use records::answers::{Numbered, Reading};
use records::records::record_of;
use records::refusals::Refusal;

// Checks 10 and 11, and the record of a field that passes them.
// Line, type and number stay arguments, as the definition takes them.
fn in_form(line: u8, kind: u8, number: u8, field: &[u8], form: Form) -> Reading
    ensures { answer_of result ≡ in_form line kind number field.now form }
{
    if let Some(place) = wrong_form(field, form) {
        return Err(Refusal::Form(place));
    }
    if let Some(place) = bad_value(line, kind, field, form) {
        return Err(Refusal::Value(place));
    }
    Ok(Numbered {
        rec: record_of(kind, values_in(field, form)),
        number,
    })
}

// Checks 8 to 11, and the record and number of a telegram that passes them.
fn contents(line: u8, s: &[u8]) -> Reading
    ensures { answer_of result ≡ contents_of line s.now }
{
    let kind = byte_at(s, 3);
    let Some(form) = form_of(line, kind, byte_at(s, 5)) else {
        return Err(Refusal::Kind);
    };
    let field = part(s, 5, s.len().saturating_sub(8));
    if let Some(place) = outside_set(field) {
        return Err(Refusal::Character(place));
    }
    in_form(line, kind, byte_at(s, 4).saturating_sub(b'0'), field, form)
}

// What bytes on a line read as.
pub fn read(line: u8, s: &[u8]) -> Reading
    ensures { answer_of result ≡ reading_of line s.now }
{
    if !is_line(line) {
        return Err(Refusal::State);
    }
    frame_check(s)?;
    contents(line, s)
}
