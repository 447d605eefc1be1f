// Refusals and records, put and parsed.
ghost use Rattle.std.specs.Prelude.{◌≡◌};
ghost use Rattle.records.specs.Records.{fields_of};
ghost use Rattle.records.specs.Refusals.{no, refusal_of};
ghost use Rattle.text.specs.Putting.{puts};
ghost use Rattle.text.specs.Items.{refusal_text, value_text, values_text, record_text, word_values, record_said};

use crate::fields::{from_field, word_value};
use crate::numbers::put_number;
use crate::putting::{put_byte, put_text};
use characters::slices::byte_at;
use records::records::{Record, count_of, record_of, type_of, values_of};
use records::refusals::{Refusal, number_of, place_of};

// `no`, a refusal's number and its place.
// No Display, as putting says. Number and place and no Refusal, as the clause has them: a replay's place counts from the front of its log.
pub fn put_no(out: &mut [u8], at: usize, number: u8, place: usize) -> usize
    ensures { (result, out.new) ≡ puts (refusal_text (no number place)) at out.old }
{
    let a = put_text(out, at, b"no ");
    let b = put_number(out, a, number as u64);
    let c = put_byte(out, b, b' ');
    put_number(out, c, place as u64)
}

pub fn put_refusal(out: &mut [u8], at: usize, refusal: Refusal) -> usize
    ensures { (result, out.new) ≡ puts (refusal_text (refusal_of refusal)) at out.old }
{
    put_no(out, at, number_of(refusal), place_of(refusal))
}

// A number behind a space.
fn put_value(out: &mut [u8], at: usize, n: u32) -> usize
    ensures { (result, out.new) ≡ puts (value_text n) at out.old }
{
    let a = put_byte(out, at, b' ');
    put_number(out, a, n as u64)
}

// Numbers, each behind a space.
fn put_numbers(out: &mut [u8], at: usize, v: &[u32]) -> usize
    ensures { (result, out.new) ≡ puts (values_text v.now) at out.old }
{
    let mut place = at;
    for n in v {
        place = put_value(out, place, *n);
    }
    place
}

// A record's values, each behind a space.
// The record's values are the first so many of ten places: fixed memory.
pub fn put_values(out: &mut [u8], at: usize, rec: Record) -> usize
    ensures { (result, out.new) ≡ puts (values_text (fields_of rec)) at out.old }
{
    let v = values_of(rec);
    let n = count_of(rec);
    put_numbers(out, at, &v[..n])
}

// A record: its type, and its values.
pub fn put_record(out: &mut [u8], at: usize, rec: Record) -> usize
    ensures { (result, out.new) ≡ puts (record_text rec) at out.old }
{
    let a = put_byte(out, at, type_of(rec));
    put_values(out, a, rec)
}

// The numbers of a row's first ten words.
pub fn word_values(s: &[u8]) -> [u32; 10]
    ensures { result ≡ word_values s.now }
{
    std::array::from_fn(|j| word_value(s, j))
}

// The record that a text says: a type, and values behind it.
// No FromStr: any text says a record, as any letter does (record_of).
pub fn record_said(s: &[u8]) -> Record
    ensures { result ≡ record_said s.now }
{
    record_of(byte_at(s, 0), word_values(from_field(s, b' ', 1)))
}
