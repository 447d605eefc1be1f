// The desk behind a row, and what the row prints.
ghost use Rattle.std.specs.Prelude.{◌≡◌};
ghost use Rattle.desk.specs.Answers.{done_of};
ghost use Rattle.desk.specs.Heard.{told_of};
ghost use Rattle.desk.specs.Hearing.{hear_of};
ghost use Rattle.text.specs.Fields.{word_value};
ghost use Rattle.scripts.specs.Desks.Behind.{printed, stepped_row, heard_row, step_of, key_at, hear_row, alter_row, due_row, call_row, on_row};

use crate::desks::altering::altered;
use crate::desks::calls::{Call, Field, Quiet, call_of};
use crate::desks::printing::put_whole;
use crate::ends::{Altered, Printed, answered, sent};
use crate::meanings::{MOST_ROOM, meant, record, room, small};
use crate::printing::put_unknown;
use characters::slices::{byte_at, part};
use desk::state::{Desk, Step};
use text::fields::word_value;

// The first byte that a row's text means; 0 where there is none. The bytes go into an array, their count beside it: there is no heap.
fn key_at(row: &[u8]) -> u8
    ensures { result ≡ key_at row.now }
{
    let mut bytes = [0u8; 256];
    let n = meant(row, 2, &mut bytes);
    byte_at(part(&bytes, 0, n), 0)
}

// The start, or a call that hears nothing.
// A match on the call, as calls.rt says.
fn step(d: Desk, quiet: Quiet, row: &[u8]) -> Step
    ensures { (result.desk, done_of result.answer) ≡ step_of d quiet row.now }
{
    match quiet {
        Quiet::Start => Desk::start(small(row, 2)),
        Quiet::Tick => d.tick(word_value(row, 2)),
        Quiet::Queue => d.queue(record(row, 2)),
        Quiet::Set => d.set(record(row, 2)),
        Quiet::Key => d.turn_key(key_at(row)),
        Quiet::ClearQueue => d.clear_queue(),
        Quiet::ClearSet => d.clear_set(),
    }
}

// A hearing of a frame, with an output of the row's room.
#[tactic(auto, unfolding(crate::specs::Desks::Behind::heard_row, crate::specs::Desks::Printing::heard_text))]
fn hear_frame(d: Desk, row: &[u8], frame: &[u8], output: &mut [u8], out: &mut [u8]) -> Printed<Desk>
    ensures { (result.state, (result.length, out.new)) ≡ printed (heard_row row.now (hear_of d (word_value 2 row.now) frame.now output.old)) out.old }
{
    let hearing = desk::hearing::hear(d, word_value(row, 2), frame, output);
    sent(hearing.desk, hearing.answer, row, output, out)
}

// The frame, like the output, is an array and a count: there is no heap.
// The master's make_row has a call to choose: one function for both would take the call as a closure, with a clause for what that answers.
fn hear(d: Desk, row: &[u8], out: &mut [u8]) -> Printed<Desk>
    ensures { (result.state, (result.length, out.new)) ≡ printed (hear_row d row.now) out.old }
{
    let mut bytes = [0u8; 256];
    let n = meant(row, 4, &mut bytes);
    let mut output = [b'#'; MOST_ROOM];
    hear_frame(d, row, part(&bytes, 0, n), &mut output[..room(row)], out)
}

// The row of a call that hears nothing.
#[tactic(auto, unfolding(crate::specs::Desks::Behind::stepped_row, crate::specs::Desks::Printing::stepped_text))]
fn step_row(d: Desk, quiet: Quiet, row: &[u8], out: &mut [u8]) -> Printed<Desk>
    ensures { (result.state, (result.length, out.new)) ≡ printed (stepped_row row.now (step_of d quiet row.now)) out.old }
{
    let step = step(d, quiet, row);
    answered(step.desk, step.answer, row, out)
}

#[tactic(auto, unfolding(crate::specs::Desks::Behind::altering_row, crate::specs::Desks::Printing::altered_text))]
fn alter(d: Desk, field: Field, row: &[u8], out: &mut [u8]) -> Printed<Desk>
    ensures { (result.state, (result.length, out.new)) ≡ printed (alter_row d field row.now) out.old }
{
    answered(altered(d, field, word_value(row, 3)), Altered, row, out)
}

// What is due, asked of a desk that stays as it is.
#[tactic(auto, unfolding(crate::specs::Desks::Behind::due_row, crate::specs::Desks::Printing::asked_text))]
fn ask(d: Desk, row: &[u8], out: &mut [u8]) -> Printed<Desk>
    ensures { (result.state, (result.length, out.new)) ≡ printed (due_row d row.now) out.old }
{
    answered(d, d.due(word_value(row, 2)), row, out)
}

// The call and its row stay apart: a record or a frame is made of the row only where the call takes it.
fn on_call(d: Desk, call: Call, row: &[u8], out: &mut [u8]) -> Printed<Desk>
    ensures { (result.state, (result.length, out.new)) ≡ printed (call_row d call row.now) out.old }
{
    match call {
        Call::Quiet(quiet) => step_row(d, quiet, row, out),
        Call::Hear => hear(d, row, out),
        Call::Alter(field) => alter(d, field, row, out),
        Call::Due => ask(d, row, out),
        Call::Show => Printed {
            state: d,
            length: put_whole(out, row, &d),
        },
        Call::Unknown => Printed {
            state: d,
            length: put_unknown(out, row),
        },
    }
}

#[tactic(auto, unfolding(crate::specs::Desks::Behind::on_row))]
pub fn on_row(d: Desk, row: &[u8], out: &mut [u8]) -> Printed<Desk>
    ensures { (result.state, (result.length, out.new)) ≡ printed (on_row d row.now) out.old }
{
    on_call(d, call_of(row), row, out)
}
