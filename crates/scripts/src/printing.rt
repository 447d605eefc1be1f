// What rows print.
// put_ functions and no Display, as tellings.rt says.
ghost use Rattle.std.specs.Prelude.{cond, ◌++◌, ◌≡◌};
ghost use Rattle.text.specs.Putting.{puts};
ghost use Rattle.scripts.specs.Printing.{began_text, comment_text, unknown_text, elapsed_text, number_text, line_text, end_text, filled_of, first_text, output_text};

use crate::tellings::InWords;
use characters::slices::part;
use clock::clock::elapsed;
use text::fields::word_value;
use text::frames::put_shown;
use text::numbers::put_number;
use text::putting::{put_byte, put_text};

// A row said again, and the indent of its answer.
pub fn begin(out: &mut [u8], row: &[u8]) -> usize
    ensures { (result, out.new) ≡ puts (began_text row.now) 0 out.old }
{
    let a = put_text(out, 0, row);
    put_text(out, a, b"\n  ")
}

// A comment is only said again.
pub fn put_comment(out: &mut [u8], row: &[u8]) -> usize
    ensures { (result, out.new) ≡ puts (comment_text row.now) 0 out.old }
{
    let a = put_text(out, 0, row);
    put_byte(out, a, b'\n')
}

// A row that names no call is said to be none.
pub fn put_unknown(out: &mut [u8], row: &[u8]) -> usize
    ensures { (result, out.new) ≡ puts (unknown_text row.now) 0 out.old }
{
    let a = begin(out, row);
    let b = put_text(out, a, b"no such row");
    put_byte(out, b, b'\n')
}

// Elapsed time.
pub fn put_elapsed(out: &mut [u8], row: &[u8]) -> usize
    ensures { (result, out.new) ≡ puts (elapsed_text row.now) 0 out.old }
{
    let n = elapsed(word_value(row, 1), word_value(row, 2));
    let a = begin(out, row);
    let b = put_number(out, a, n as u64);
    put_byte(out, b, b'\n')
}

// A number behind a word.
// No put_behind: a type for numbers that are said in words would be longer than these two lines.
pub fn number(out: &mut [u8], at: usize, word: &[u8], n: u64) -> usize
    ensures { (result, out.new) ≡ puts (number_text word.now n) at out.old }
{
    let a = put_text(out, at, word);
    put_number(out, a, n)
}

// Something behind a word.
pub(crate) fn put_behind<W: InWords>(out: &mut [u8], at: usize, word: &[u8], what: W) -> usize
    ensures { (result, out.new) ≡ puts (word.now ++ W.words what) at out.old }
{
    let a = put_text(out, at, word);
    what.put(out, a)
}

// One text where something holds, another where it does not.
pub(crate) fn put_either(out: &mut [u8], at: usize, holds: bool, text: &[u8], other: &[u8]) -> usize
    ensures { (result, out.new) ≡ puts (cond holds text.now other.now) at out.old }
{
    put_text(out, at, if holds { text } else { other })
}

// A line is good or lost.
pub fn line(out: &mut [u8], at: usize, good: bool) -> usize
    ensures { (result, out.new) ≡ puts (line_text good) at out.old }
{
    put_either(out, at, good, b"; line good", b"; line lost")
}

// What every row ends with: the line, and two numbers of the state, each behind its word.
pub(crate) fn end(
    out: &mut [u8],
    at: usize,
    good: bool,
    word: &[u8],
    n: u64,
    other: &[u8],
    m: u64,
) -> usize
    ensures { (result, out.new) ≡ puts (end_text good word.now n other.now m) at out.old }
{
    let a = line(out, at, good);
    let b = number(out, a, word, n);
    let c = number(out, b, other, m);
    put_byte(out, c, b'\n')
}

// How many of these bytes there are up to the last that is not #.
#[tactic(auto, using(crate::proofs::Filled::filled_at, crate::proofs::Filled::filled_none))]
fn filled(bytes: &[u8]) -> usize
    ensures { result ≡ filled_of bytes.now }
{
    match bytes.iter().rposition(|b| *b != b'#') {
        Some(last) => last + 1,
        None => 0,
    }
}

// The first n of these bytes behind a word; where there are none, nothing.
// n stands beside the bytes: it is a state's own count, and that of an altered state may be more than the bytes are.
pub fn first(out: &mut [u8], at: usize, word: &[u8], bytes: &[u8], n: usize) -> usize
    ensures { (result, out.new) ≡ puts (first_text word.now bytes.now n) at out.old }
{
    if n == 0 {
        return at;
    }
    let a = put_text(out, at, word);
    put_shown(out, a, part(bytes, 0, n))
}

// What stands in an output that held # all over before the call.
// What is filled is found by the bytes: the row shows what the output holds, whatever count the call answers.
#[tactic(auto, unfolding(crate::specs::Printing::output_text))]
pub fn output(out: &mut [u8], at: usize, sent: &[u8]) -> usize
    ensures { (result, out.new) ≡ puts (output_text sent.now) at out.old }
{
    first(out, at, b" ", sent, filled(sent))
}
