// The packets of telegrams, and the values of record blocks by their packets' letters.
// Parameters and tests of lengths and lines are as lib.rt says.
ghost use Rattle.std.specs.Prelude.{◌≡◌, ◌==◌, position};
ghost use Rattle.forms.specs.Forms.{looked_of};
ghost use Rattle.in656.specs.Packets.{row_meant, place_found, sender_of, packet_result, packet_call, record_call, lies, lying_in, lying, value_call, put_call};

use crate::inputs::byte_or;
use crate::results::result::{In656Result, done, refuse, say};
use blocks::layout::save;
use blocks::record::RECORD_LENGTH;
use characters::slices::{byte_at, part};
use forms::lines::is_line;
use forms::rows::Form;
use forms::table::{count_of, form_of};
use records::records::record_of;
use records::refusals::Refusal;
use text::fours::{four_said, put_four};

// Outcome: who sends a type on a line, a number of the C interface (include/in656.h).
pub const BY_MASTER: u32 = 1;

pub const BY_SLAVE: u32 = 2;

// The form that a caller's numbers mean.
fn row_meant(line: u32, kind: u32, first: u32) -> Option<Form>
    ensures { looked_of result ≡ row_meant line kind first }
{
    form_of(byte_or(0, line), byte_or(0, kind), byte_or(0, first))
}

// Who sends a form.
// No From: who sends it is one of several answers of a form.
fn sender_of(form: Form) -> u32
    ensures { result ≡ sender_of form }
{
    if form.master { BY_MASTER } else { BY_SLAVE }
}

// The packet of a form at an index.
fn packet_of(form: Form, index: u32) -> In656Result
    ensures { result ≡ packet_result form index }
{
    let count = count_of(form);
    let i = index as usize;
    if count <= i {
        return done().with_count(count as u8);
    }
    say(sender_of(form), u32::from(form.letters[i]))
        .with_written(usize::from(form.lens[i]))
        .with_count(count as u8)
}

#[tactic(auto, unfolding(crate::specs::Packets::packet_call))]
#[unsafe(no_mangle)]
pub extern "C" fn in656_packet(line: u32, kind: u32, first: u32, index: u32) -> In656Result
    ensures { result ≡ packet_call line kind first index }
{
    if !is_line(byte_or(0, line)) {
        return refuse(Refusal::State);
    }
    let Some(form) = row_meant(line, kind, first) else {
        return refuse(Refusal::NotSent);
    };
    packet_of(form, index)
}

#[tactic(auto, unfolding(crate::specs::Packets::record_call))]
#[unsafe(no_mangle)]
pub extern "C" fn in656_record(line: u32, kind: u32, first: u32, block: &mut [u8]) -> In656Result
    ensures { (result, block.new) ≡ record_call line kind first block.old }
{
    if !is_line(byte_or(0, line)) {
        return refuse(Refusal::State);
    }
    if block.len() != RECORD_LENGTH {
        return refuse(Refusal::NoRoom);
    }
    let Some(form) = row_meant(line, kind, first) else {
        return refuse(Refusal::NotSent);
    };
    save(record_of(form.kind, [0u32; 10]), block);
    done().with_record()
}

// The place of a letter among letters, where it is one of them.
fn place_in(letters: &[u8], letter: u8) -> Option<usize>
    ensures { result ≡ position (λ l. l == letter) letters.now }
{
    letters.iter().position(|l| *l == letter)
}

// The place of a letter among a form's packets, where one has it.
#[tactic(auto, using(crate::proofs::Places::count_most))]
fn letter_place(form: Form, letter: u8) -> Option<usize>
    ensures { result ≡ place_found form letter }
{
    place_in(&form.letters[..count_of(form)], letter)
}

// Where the value of a letter lies in the block of a form's record.
fn lies_in(form: Form, letter: u8) -> Result<usize, Refusal>
    ensures { lies result ≡ lying_in form letter }
{
    let Some(place) = letter_place(form, letter) else {
        return Err(Refusal::Form(0));
    };
    Ok(1 + 4 * place)
}

// Where the value of a letter lies in a block.
#[tactic(auto, unfolding(crate::specs::Packets::lying))]
fn value_at(line: u32, block: &[u8], letter: u32) -> Result<usize, Refusal>
    ensures { lies result ≡ lying line block.now letter }
{
    let l = byte_or(0, line);
    if !is_line(l) {
        return Err(Refusal::State);
    }
    if block.len() != RECORD_LENGTH {
        return Err(Refusal::NotSent);
    }
    let Some(form) = form_of(l, byte_at(block, 0), 0) else {
        return Err(Refusal::NotSent);
    };
    lies_in(form, byte_or(0, letter))
}

#[unsafe(no_mangle)]
pub extern "C" fn in656_value(line: u32, block: &[u8], letter: u32) -> In656Result
    ensures { result ≡ value_call line block.now letter }
{
    value_at(line, block, letter).map_or_else(refuse, |at| say(0, four_said(part(block, at, 4))))
}

#[unsafe(no_mangle)]
pub extern "C" fn in656_put_value(
    line: u32,
    block: &mut [u8],
    letter: u32,
    value: u32,
) -> In656Result
    ensures { (result, block.new) ≡ put_call line block.old letter value }
{
    match value_at(line, block, letter) {
        Ok(at) => {
            put_four(block, at, value);
            done()
        }
        Err(refusal) => refuse(refusal),
    }
}
