// A packet's value as a number and as characters, and whether a record is permitted (rules V18, R11, R13).
ghost use Rattle.std.specs.Prelude.{◌≡◌, ◌≤◌, length};
ghost use Rattle.laws.specs.Numerals.{numeral};
ghost use Rattle.forms.specs.Forms.{slots_of};
ghost use Rattle.values.specs.Packets.{is_decimal};
ghost use Rattle.values.specs.Values.{text_of, packet_text, number_width, narrow, value_of, permitted_from, number_fits, permitted, permits_value, permits_values, permits_record, length_of};

use crate::numbers::{left_of, low_digit, number_said, put_numeral, quotient};
use crate::packetnumbers::{is_decimal, is_ruled, lead_of, permits_number};
use crate::packets::permits_byte;
use characters::slices::part;
use forms::rows::Form;
use forms::table::{count_of, form_of, width_of};
use records::records::{Record, letter_of, type_of, values_of};

// How many characters of a value of w are its number's.
// A lead of 0 is none, as lead_of says. Line, type, letter, length and number stay arguments, here and below: the definitions take each apart.
#[tactic(auto, unfolding(crate::specs::Values::number_width))]
fn number_width(letter: u8, w: usize) -> usize
    ensures { result ≡ number_width letter w }
{
    if lead_of(letter) == 0 {
        return w;
    }
    w.saturating_sub(1)
}

// Fills a part with the characters of a packet's value.
// No Display: a packet is bytes of a telegram, each in its own part.
#[tactic(auto, unfolding(crate::specs::Values::text_of))]
fn put_value(part: &mut [u8], letter: u8, n: u32)
    ensures { part.new ≡ text_of letter (length part.old) n }
{
    let lead = lead_of(letter);
    let decimal = is_decimal(letter);
    if lead == 0 {
        put_numeral(part, decimal, n);
    } else if let Some((first, rest)) = part.split_first_mut() {
        *first = lead;
        put_numeral(rest, decimal, n);
    }
}

// Fills a part with a packet: its letter, and then its value. An empty part stays so.
pub fn put_packet(part: &mut [u8], letter: u8, n: u32)
    ensures { part.new ≡ packet_text letter (length part.old) n }
{
    if let Some((first, rest)) = part.split_first_mut() {
        *first = letter;
        put_value(rest, letter, n);
    }
}

// Whether a value of w characters is a number of 32 bits.
#[tactic(auto, unfolding(crate::specs::Values::narrow))]
pub fn is_narrow(letter: u8, w: usize) -> bool
    ensures { result ≡ narrow letter w }
{
    w <= 6 && (is_decimal(letter) || w <= 3)
}

// The number that the characters of a packet's value say, 0 where it is none of 32 bits.
// 0 and no Option: docs/PROMISES.md has it as Values.value_of, which says 0.
#[tactic(auto, unfolding(crate::specs::Values::value_of, crate::specs::Values::narrow))]
pub fn value_of(letter: u8, text: &[u8]) -> u32
    ensures { result ≡ value_of letter text.now }
{
    if !is_narrow(letter, text.len()) {
        return 0;
    }
    if lead_of(letter) == 0 {
        return number_said(is_decimal(letter), text);
    }
    number_said(is_decimal(letter), part(text, 1, text.len()))
}

// Whether a packet has no rule for its value's number, or the number of w characters passes it.
#[tactic(auto, unfolding(crate::specs::Values::number_fits))]
fn number_fits(line: u8, letter: u8, w: usize, n: u32) -> bool
    ensures { result ≡ number_fits line letter w n }
{
    !is_ruled(line, letter) || (is_narrow(letter, w) && permits_number(line, letter, n))
}

// Whether each character of a packet's value is permitted.
fn permits_bytes(line: u8, kind: u8, letter: u8, text: &[u8]) -> bool
    ensures { result ≡ permitted_from line kind letter 0 text.now }
{
    text.iter()
        .enumerate()
        .all(|(at, b)| permits_byte(line, kind, letter, at, *b))
}

// Whether the characters of a packet's value are permitted; their number is asked for only where there is a rule for it.
#[tactic(auto, unfolding(crate::specs::Values::permitted, crate::specs::Values::number_fits))]
pub fn permits_text(line: u8, kind: u8, letter: u8, text: &[u8]) -> bool
    ensures { result ≡ permitted line kind letter text.now }
{
    permits_bytes(line, kind, letter, text)
        && (!is_ruled(line, letter)
            || number_fits(line, letter, text.len(), value_of(letter, text)))
}

// Whether the w low digits of a number are permitted as a value's characters from a place on, asked from the last to the first.
#[tactic(auto, unfolding(laws::specs::Numerals::numeral_on, crate::specs::Values::permitted_from), using(crate::proofs::Spelt::last_good, crate::proofs::Spelt::last_bad))]
fn permits_digits(line: u8, kind: u8, letter: u8, from: usize, w: usize, n: u32) -> bool
    requires { (from ≤ 1) × (w ≤ 255) }
    ensures { result ≡ permitted_from line kind letter from (numeral (is_decimal letter) w n) }
{
    let decimal = is_decimal(letter);
    let mut m = n;
    for i in (0..w).rev() {
        if !permits_byte(line, kind, letter, from + i, low_digit(decimal, m)) {
            return false;
        }
        m = quotient(decimal, m);
    }
    true
}

// Whether the w characters of a packet's value are permitted, one by one.
#[tactic(auto, unfolding(crate::specs::Values::text_of, crate::specs::Values::permitted_from))]
fn permits_spelt(line: u8, kind: u8, letter: u8, w: usize, n: u32) -> bool
    requires { w ≤ 255 }
    ensures { result ≡ permitted_from line kind letter 0 (text_of letter w n) }
{
    let lead = lead_of(letter);
    if lead == 0 {
        return permits_digits(line, kind, letter, 0, w, n);
    }
    w == 0
        || (permits_byte(line, kind, letter, 0, lead)
            && permits_digits(line, kind, letter, 1, w - 1, n))
}

// Whether a number is permitted as a packet's value of so many characters.
#[tactic(auto, unfolding(crate::specs::Values::permits_value))]
pub(crate) fn permits_value(line: u8, kind: u8, letter: u8, len: u8, n: u32) -> bool
    ensures { result ≡ permits_value line kind letter len n }
{
    let w = usize::from(len);
    left_of(is_decimal(letter), number_width(letter, w), n) == 0
        && permits_spelt(line, kind, letter, w, n)
        && number_fits(line, letter, w, n)
}

// Whether a record is permitted on a line.
// Line and record stay apart: a record is of no line, and is asked on each.
#[tactic(auto, unfolding(crate::specs::Values::permits_record))]
pub fn permits_record(line: u8, rec: Record) -> bool
    ensures { result ≡ permits_record line rec }
{
    let kind = type_of(rec);
    let values = values_of(rec);
    form_of(line, kind, letter_of(rec)).is_some_and(|form| permits_values(line, kind, form, values))
}

// Whether each value of a form's packets is permitted.
// Form and values stay apart: the form is the table's, the values are a record's.
#[tactic(auto, using(forms::proofs::Slots::count_small))]
pub fn permits_values(line: u8, kind: u8, form: Form, values: [u32; 10]) -> bool
    ensures { result ≡ permits_values line kind (slots_of form) values }
{
    let Form { letters, lens, .. } = form;
    letters[..count_of(form)].iter().zip(&lens).zip(&values).all(|((letter, len), n)| permits_value(
        line, kind, *letter, *len, *n,
    ))
}

// The length of a record's telegram, 0 where its type is not on the line.
// 0 and no Option: docs/PROMISES.md has it as Values.length_of, which says 0.
#[tactic(auto, unfolding(crate::specs::Values::length_of))]
pub(crate) fn length_of(line: u8, rec: Record) -> usize
    ensures { result ≡ length_of line rec }
{
    form_of(line, type_of(rec), letter_of(rec)).map_or(0, |form| 8 + width_of(form))
}
