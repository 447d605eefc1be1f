// What comes of a row that is read (R), written (W) or summed (S): name|R|line|bytes|expected,
// name|W|line|type|number|room|values|expected, name|S|bytes|expected. Values are decimal numbers with spaces between them.
// In bytes < is LF, > is CR and =HH the byte HH hex.
// put_ functions and no Display: text goes into a lent array, and there is no heap.
use characters::checksum::checksum;
use characters::slices::{byte_at, part};
use reading::reading::read;
use records::answers::{Numbered, Reading};
use records::records::{Record, record_of, type_of};
use records::refusals::Refusal;
use text::fields::field;
use text::frames::{put_meant, put_shown};
use text::hex::put_hex;
use text::items::{put_refusal, put_values, word_values};
use text::numbers::{number, put_number};
use text::putting::{put_byte, put_text};
use writing::writing::write;

// What is done with a row.
#[derive(Clone, Copy)]
pub(crate) enum Kind {
    Read,
    Write,
    Sum,
}

pub(crate) fn kind_of(row: &[u8]) -> Option<Kind> {
    match byte_at(field(row, b'|', 1), 0) {
        b'R' => Some(Kind::Read),
        b'W' => Some(Kind::Write),
        b'S' => Some(Kind::Sum),
        _ => None,
    }
}

// The number of a field.
// By a remainder and `as`: a row's number wraps. scripts::meanings takes words between spaces, these rows have fields between bars.
fn small(row: &[u8], at: usize) -> u8 {
    (number(field(row, b'|', at)) % 256) as u8
}

// A type and a number.
fn put_type(out: &mut [u8], kind: u8, number: u8) -> usize {
    let a = put_text(out, 0, b"ok ");
    let b = put_byte(out, a, kind);
    let c = put_byte(out, b, b' ');
    put_number(out, c, number as u64)
}

// captures and scripts print a reading in other words and with other parts: one function for all would take each of them as a parameter.
fn put_reading(out: &mut [u8], reading: Reading) -> usize {
    match reading {
        Err(refusal) => put_refusal(out, 0, refusal),
        Ok(Numbered { rec, number }) => {
            let a = put_type(out, type_of(rec), number);
            put_values(out, a, rec)
        }
    }
}

// What a text means fills the front of an array, beside its count: fixed memory, no heap.
fn reads(row: &[u8], out: &mut [u8]) -> usize {
    let mut bytes = [0u8; 128];
    let n = put_meant(&mut bytes, 0, field(row, b'|', 3));
    put_reading(out, read(small(row, 2), part(&bytes, 0, n)))
}

fn put_writing(out: &mut [u8], writing: Result<usize, Refusal>) -> usize {
    match writing {
        Err(refusal) => put_refusal(out, 0, refusal),
        Ok(n) => {
            let a = put_text(out, 0, b"written ");
            put_number(out, a, n as u64)
        }
    }
}

// The record that a row says.
fn record(row: &[u8]) -> Record {
    record_of(
        byte_at(field(row, b'|', 3), 0),
        word_values(field(row, b'|', 6)),
    )
}

// Writes into this telegram.
fn written(row: &[u8], telegram: &mut [u8]) -> Result<usize, Refusal> {
    write(small(row, 2), record(row), small(row, 4), telegram)
}

// The outcome, and what the telegram then holds.
fn write_into(row: &[u8], telegram: &mut [u8], out: &mut [u8]) -> usize {
    let a = put_writing(out, written(row, telegram));
    let b = put_byte(out, a, b' ');
    put_shown(out, b, telegram)
}

// The room that a row gives its telegram.
fn room(row: &[u8]) -> usize {
    (number(field(row, b'|', 5)) % 4294967296) as usize
}

// The telegram is # before the call, so that what is kept can be seen.
fn writes(row: &[u8], out: &mut [u8]) -> usize {
    let mut telegram = [b'#'; 64];
    let n = room(row);
    if 64 < n {
        return put_text(out, 0, b"room over 64");
    }
    write_into(row, &mut telegram[..n], out)
}

// An array and a count, as in reads.
fn sums(row: &[u8], out: &mut [u8]) -> usize {
    let mut bytes = [0u8; 128];
    let n = put_meant(&mut bytes, 0, field(row, b'|', 2));
    put_hex(out, 0, checksum(part(&bytes, 0, n)))
}

// What comes of a row; how many bytes it has.
pub(crate) fn put_came(row: &[u8], out: &mut [u8]) -> usize {
    match kind_of(row) {
        Some(Kind::Read) => reads(row, out),
        Some(Kind::Write) => writes(row, out),
        Some(Kind::Sum) => sums(row, out),
        None => put_text(out, 0, b"no such row"),
    }
}
