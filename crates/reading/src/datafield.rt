// The data field: checks 9 to 11, and its values (rules R9 to R11).
ghost use Rattle.std.specs.Prelude.{◌≡◌, ℕ, List, Bool, drop};
ghost use Rattle.forms.specs.Forms.{slots_of};
ghost use Rattle.reading.specs.DataField.{AnswersAs, first_packet, outside, wrong_letter, bad_value, misshapen, values_in};

use characters::characters::in_set;
use characters::slices::{byte_at, part, wide};
use forms::rows::Form;
use forms::table::{count_of, width_of};
use values::values::{permits_text, value_of};

// Check 9: the first byte outside the set.
pub fn outside_set(field: &[u8]) -> Option<usize>
    ensures { result ≡ outside 5 field.now }
{
    let i = field.iter().position(|b| !in_set(*b))?;
    Some(5 + i)
}

// The letter of the first packet that fails a test of its form's letter and its characters, its own letter first.
// Field and form stay apart, here and below: the field is a telegram's, the form the table's.
#[tactic(auto, using(forms::proofs::Slots::count_small))]
fn first_packet<F: Fn(u8, &[u8]) -> bool>(field: &[u8], form: Form, fits: F) -> Option<usize>
    requires { F.IsAlwaysCallable fits }
    ensures { (test : ℕ → List ℕ → Bool) → AnswersAs F.Fn fits test → result ≡ first_packet test 5 (slots_of form) field.now }
{
    let Form { letters, lens, .. } = form;
    let count = count_of(form);
    let mut at: usize = 0;
    for (letter, len) in letters[..count].iter().zip(&lens[..count]) {
        let width = 1 + wide(*len);
        if !fits(*letter, part(field, at, width)) {
            return Some(5 + at);
        }
        at += width;
    }
    None
}

// The first packet letter that is not the form's.
fn wrong_letter(field: &[u8], form: Form) -> Option<usize>
    ensures { result ≡ wrong_letter 5 (slots_of form) field.now }
{
    first_packet(field, form, |letter, packet| byte_at(packet, 0) == letter)
}

// Check 10: data field of another length, or a packet letter wrong.
pub fn wrong_form(field: &[u8], form: Form) -> Option<usize>
    ensures { result ≡ misshapen form field.now }
{
    if field.len() == width_of(form) {
        wrong_letter(field, form)
    } else {
        Some(5)
    }
}

// The characters of a packet behind its letter.
fn behind_letter(packet: &[u8]) -> &[u8]
    ensures { result.now ≡ drop 1 packet.now }
{
    packet.get(1..).unwrap_or(&[])
}

// Check 11: the letter of the first packet whose value is not permitted.
pub(crate) fn bad_value(line: u8, kind: u8, field: &[u8], form: Form) -> Option<usize>
    ensures { result ≡ bad_value line kind 5 (slots_of form) field.now }
{
    first_packet(field, form, |letter, packet| {
        permits_text(line, kind, letter, behind_letter(packet))
    })
}

// The packets' values, with 0 in the places behind them.
pub fn values_in(field: &[u8], form: Form) -> [u32; 10]
    ensures { result ≡ values_in 10 (slots_of form) field.now }
{
    let Form { letters, lens, .. } = form;
    let mut values = [0u32; 10];
    let count = count_of(form);
    let mut at: usize = 0;
    // By index: with the three arrays zipped, one by iter_mut, the loop still carries the place at, and is no shorter.
    for j in 0..count {
        let len = wide(lens[j]);
        values[j] = value_of(letters[j], part(field, at + 1, len));
        at += 1 + len;
    }
    values
}
