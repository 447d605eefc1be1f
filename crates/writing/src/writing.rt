// Writing a record's telegram (rules W4 to W6): 15, 12, 13, 14, then each packet into its own stretch of the output.
ghost use Rattle.std.specs.Prelude.{◌≡◌, ◌++◌, ◌+◌, ◌-◌, ◌≤◌, ◌<◌, length, drop};
ghost use Rattle.forms.specs.Forms.{slots_of, width_of};
ghost use Rattle.records.specs.Answers.{outcome_of};
ghost use Rattle.reading.specs.Frame.{frame_of, head_text, tail_text};
ghost use Rattle.reading.specs.Contents.{data_of};
ghost use Rattle.writing.specs.Writing.{writing_of};

use characters::checksum::{checksum, hex};
use characters::marks::{CR, LF};
use characters::slices::wide;
use forms::lines::is_line;
use forms::rows::Form;
use forms::table::{count_of, form_of, width_of};
use reading::frame::{count_high, count_low};
use records::records::{Record, letter_of, type_of, values_of};
use records::refusals::Refusal;
use values::values::{permits_values, put_packet};

// LF, the byte count of a telegram of n bytes, type and number.
// The number's range stays in the requires: write refuses any other number 13, so an enum of two would be made for these two functions alone.
// No Display: bytes of a telegram.
fn put_head(part: &mut [u8], n: usize, kind: u8, number: u8)
    requires { (length part.old ≡ 5) × (number < 2) }
    ensures { part.new ≡ head_text n kind number }
{
    part.copy_from_slice(&[LF, count_high(n), count_low(n), kind, b'0' + number]);
}

// The checksum's two characters and CR.
fn put_tail(part: &mut [u8], sum: u8)
    requires { length part.old ≡ 3 }
    ensures { part.new ≡ tail_text sum }
{
    part.copy_from_slice(&[hex(sum / 16), hex(sum), CR]);
}

// The packets of a form with these values, each in its own stretch.
fn put_packets(field: &mut [u8], form: Form, values: [u32; 10])
    requires { length field.old ≡ width_of form }
    ensures { field.new ≡ data_of (slots_of form) values }
{
    let Form { letters, lens, .. } = form;
    let count = count_of(form);
    let mut at: usize = 0;
    // By index: with the three arrays zipped the loop still carries the place at, and is no shorter.
    for j in 0..count {
        let end = at + (1 + wide(lens[j]));
        put_packet(&mut field[at..end], letters[j], values[j]);
        at = end;
    }
}

// The telegram of a form, number and values, from the front, with what lies behind it kept.
// Type, number, form and values stay arguments: write has each from another source.
fn put_telegram(out: &mut [u8], kind: u8, number: u8, form: Form, values: [u32; 10])
    requires { (8 + width_of form ≤ length out.old) × (number < 2) }
    ensures { out.new ≡ frame_of kind number (data_of (slots_of form) values) ++ drop (8 + width_of form) out.old }
{
    let n = 8 + width_of(form);
    let end = n - 3;
    put_head(&mut out[0..5], n, kind, number);
    put_packets(&mut out[5..end], form, values);
    let sum = checksum(&out[1..end]);
    put_tail(&mut out[end..n], sum);
}

// Writes a record with its number as a telegram on a line.
// Record and number stay apart, as the clause takes them (writing_of).
pub fn write(line: u8, rec: Record, number: u8, out: &mut [u8]) -> Result<usize, Refusal>
    ensures { (outcome_of result, out.new) ≡ writing_of line rec number out.old }
{
    if !is_line(line) {
        return Err(Refusal::State);
    }
    let kind = type_of(rec);
    let Some(form) = form_of(line, kind, letter_of(rec)) else {
        return Err(Refusal::NotSent);
    };
    let values = values_of(rec);
    if !permits_values(line, kind, form, values) {
        return Err(Refusal::Range);
    }
    if 1 < number {
        return Err(Refusal::Range);
    }
    let n = 8 + width_of(form);
    if out.len() < n {
        return Err(Refusal::NoRoom);
    }
    put_telegram(out, kind, number, form, values);
    Ok(n)
}
