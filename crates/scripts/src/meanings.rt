// What the words of a row mean.
ghost use Rattle.std.specs.Prelude.{◌≡◌, length};
ghost use Rattle.std.specs.List.{slice_get};
ghost use Rattle.text.specs.Fields.{word_of, word_place};
ghost use Rattle.text.specs.Putting.{puts};
ghost use Rattle.scripts.specs.Meanings.{small_at, room_of, record_at, meant_at};

use records::records::Record;
use text::fields::{from_field, word, word_place, word_value};
use text::frames::put_meant;
use text::items::record_said;

// What the word of this number names: the meaning at the place of that word among the words of a text; None where it is none of them.
pub(crate) fn named<T: Copy>(row: &[u8], at: usize, words: &[u8], meanings: &[T]) -> Option<T>
    ensures { result ≡ slice_get meanings.now (word_place words.now (length meanings.now) (word_of at row.now)) }
{
    meanings
        .get(word_place(words, meanings.len(), word(row, at)))
        .copied()
}

// A word as a number kept in a byte.
// By a remainder and `as`: a row's number wraps, and u8::try_from would refuse it.
pub fn small(row: &[u8], at: usize) -> u8
    ensures { result ≡ small_at at row.now }
{
    (word_value(row, at) % 256) as u8
}

// The most room that a row gives an output.
pub const MOST_ROOM: usize = 128;

// The room that a row gives an output.
#[tactic(auto, unfolding(crate::specs::Meanings::room_of))]
pub fn room(row: &[u8]) -> usize
    ensures { result ≡ room_of row.now }
{
    (word_value(row, 3) as usize).min(MOST_ROOM)
}

// The record that begins at the word of this number.
pub fn record(row: &[u8], at: usize) -> Record
    ensures { result ≡ record_at at row.now }
{
    record_said(from_field(row, b' ', at))
}

// The bytes that a row's text means from the word of this number on go to the front of these, as many as have room; how many they are.
pub fn meant(row: &[u8], at: usize, bytes: &mut [u8]) -> usize
    ensures { (result, bytes.new) ≡ puts (meant_at at row.now) 0 bytes.old }
{
    put_meant(bytes, 0, from_field(row, b' ', at))
}
