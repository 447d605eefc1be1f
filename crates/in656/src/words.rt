// Words for a person: of the refusals, and of the desk's and the master's answers.
// Parameters and tests of lengths and lines are as lib.rt says.
ghost use Rattle.std.specs.Prelude.{◌≡◌};
ghost use Rattle.text.specs.Fields.{row_field};
ghost use Rattle.in656.specs.Inputs.{byte_or};
ghost use Rattle.in656.specs.Words.{bar, line_feed, worded, refusal_words, desk_words, master_words};

use crate::inputs::byte_or;
use crate::results::result::{In656Result, done, refuse};
use records::refusals::Refusal;
use text::fields::field;
use text::putting::{put_byte, put_text};

// The words of an outcome and its detail. A table has a line for each outcome from 0 on, and in it the words of each detail from 0 on, with bars between.
// One text, as a person reads it: an array for each line would put quotes and commas around each word.
fn words_in(table: &[u8], outcome: u32, detail: u32) -> &[u8]
    ensures { result.now ≡ row_field bar (byte_or 255 detail) (row_field line_feed (byte_or 255 outcome) table.now) }
{
    let row = field(table, b'\n', usize::from(byte_or(255, outcome)));
    field(row, b'|', usize::from(byte_or(255, detail)))
}

// Puts words to the front of an output, with a 0 behind them.
// No Display: the words go into a lent output, and there is no heap.
#[tactic(auto, unfolding(crate::specs::Words::worded))]
fn put_words(words: &[u8], out: &mut [u8]) -> In656Result
    ensures { (result, out.new) ≡ worded words.now out.old }
{
    if words.is_empty() {
        return refuse(Refusal::Range);
    }
    if out.len() <= words.len() {
        return refuse(Refusal::NoRoom);
    }
    let n = put_text(out, 0, words);
    put_byte(out, n, 0);
    done().with_written(n)
}

// Three names of the C interface, each with its table: what they share is words_in and put_words.
#[unsafe(no_mangle)]
pub extern "C" fn in656_refusal_words(refusal: u32, out: &mut [u8]) -> In656Result
    ensures { (result, out.new) ≡ refusal_words refusal out.old }
{
    let table = b"not refused
under 10 bytes
over 66 bytes
the first byte is not LF
the byte count is not two digits, or not the length less 2
the last byte is not CR
the checksum is wrong, or not of 0-9 A-F
the number is not 0 or 1
this line has no telegram of this type
a data byte is outside the character set
the data field has another length, or a packet letter is wrong
a value is not permitted
this end does not send this record on this line
a value, a number or the key position is out of its range
the output has too little room
there is no such line, or a state is out of its ranges
the master is not free: it has not ended its last telegram
the desk's queue is full: eight records wait
a record of a log has an unknown mark
its length is over 66, or it is a hit with a length
the log ends inside a record";
    put_words(words_in(table, refusal, 0), out)
}

#[unsafe(no_mangle)]
pub extern "C" fn in656_desk_words(outcome: u32, detail: u32, out: &mut [u8]) -> In656Result
    ensures { (result, out.new) ≡ desk_words outcome detail out.old }
{
    let table = b"
done
nothing is sent: the frame is refused
a checksum fault: N with 1 is sent
a repeat: the stored answer is sent again
|handled: answered with the record set for r\
|handled: answered with the oldest record of the queue\
|handled: answered with A, since no record waits\
|handled: answered with A, and the record is for the panel\
|handled: answered with N, since the contents are refused\
|handled: answered with N, since the master does not send this telegram\
|handled: answered with N, since no record is set for r";
    put_words(words_in(table, outcome, detail), out)
}

#[unsafe(no_mangle)]
pub extern "C" fn in656_master_words(outcome: u32, detail: u32, out: &mut [u8]) -> In656Result
    ensures { (result, out.new) ≡ master_words outcome detail out.old }
{
    let table = b"
nothing to do
|sent: the record that was offered|sent: the same telegram again|sent: a poll
answered
an answer of another kind
|given up: no answer came, and the line is noted lost|given up: the last sending was rejected
|ignored: the master waits on no telegram|ignored: T2 has run out|ignored: the frame is refused|ignored: it has the other number";
    put_words(words_in(table, outcome, detail), out)
}
