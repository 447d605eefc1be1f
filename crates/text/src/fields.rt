// The fields of a row, between separators, and its words, between spaces.
ghost use Rattle.std.specs.Prelude.{◌≡◌, ◌+◌, ◌%◌, ◌^◌, ◌==◌};
ghost use Rattle.std.specs.List.{position_or_len};
ghost use Rattle.text.specs.Fields.{up_to, behind_first, from_field, row_field, word_of, word_value, same_text, word_place};

use crate::numbers::number;

// The place of a row's first separator, or its length.
// A row and its separator stay arguments, here and below: one row is split at spaces and at other marks.
fn end_of(s: &[u8], separator: u8) -> usize
    ensures { result ≡ position_or_len (λ b. b == separator) s.now }
{
    s.iter().position(|b| *b == separator).unwrap_or(s.len())
}

// A row up to its first separator.
#[tactic(auto, using(crate::proofs::Rows::up_to_is))]
fn up_to(s: &[u8], separator: u8) -> &[u8]
    ensures { result.now ≡ up_to separator s.now }
{
    &s[..end_of(s, separator)]
}

// What stands behind a row's first separator; nothing where there is none.
#[tactic(auto, using(crate::proofs::Rows::behind_first_is))]
fn behind_first(s: &[u8], separator: u8) -> &[u8]
    ensures { result.now ≡ behind_first separator s.now }
{
    let end = end_of(s, separator);
    if end < s.len() { &s[end + 1..] } else { &[] }
}

// A row from the field of this number on.
#[tactic(auto, using(crate::proofs::Rows::field_passed, crate::proofs::Rows::all_passed))]
pub fn from_field(s: &[u8], separator: u8, number: usize) -> &[u8]
    ensures { result.now ≡ from_field separator number s.now }
{
    let mut rest = s;
    for _ in 0..number {
        rest = behind_first(rest, separator);
    }
    rest
}

// The field of this number, from 0; nothing where there are fewer.
#[tactic(auto, unfolding(crate::specs::Fields::row_field))]
pub fn field(s: &[u8], separator: u8, number: usize) -> &[u8]
    ensures { result.now ≡ row_field separator number s.now }
{
    up_to(from_field(s, separator, number), separator)
}

// The word of this number.
pub fn word(s: &[u8], number: usize) -> &[u8]
    ensures { result.now ≡ word_of number s.now }
{
    field(s, b' ', number)
}

// The word of this number as a number of 32 bits; 0 where there is none.
// 0 and no Option, as docs/SCENES.md says of a missing word.
pub fn word_value(s: &[u8], at: usize) -> u32
    ensures { result ≡ word_value at s.now }
{
    (number(word(s, at)) % 4294967296) as u32
}

// Whether two texts are the same.
pub fn same(a: &[u8], b: &[u8]) -> bool
    ensures { result ≡ same_text a.now b.now }
{
    if a.len() != b.len() {
        return false;
    }
    // It does not stop at a byte that differs, so many are compared at once.
    let mut all = true;
    for (x, y) in a.iter().zip(b) {
        all = all & (*x == *y);
    }
    all
}

// The number of a word among the first so many of a text, which is how many they are where it is none of them.
// No Option: docs/PROMISES.md has it as Fields.word_place, which says how many they are.
pub fn word_place(words: &[u8], count: usize, one: &[u8]) -> usize
    ensures { result ≡ word_place words.now count one.now }
{
    (0..count)
        .find(|k| same(word(words, *k), one))
        .unwrap_or(count)
}
