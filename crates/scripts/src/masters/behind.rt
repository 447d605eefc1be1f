// The master behind a row, and what the row prints.
ghost use Rattle.std.specs.Prelude.{◌≡◌};
ghost use Rattle.master.specs.Answers.{told_of};
ghost use Rattle.master.specs.Hearing.{hear_of};
ghost use Rattle.text.specs.Fields.{word_value};
ghost use Rattle.scripts.specs.Meanings.{bytes_at};
ghost use Rattle.scripts.specs.Masters.Behind.{printed, did_row, start_row, made_of, make_row, alter_row, due_row, call_row, on_row};

use crate::ends::{Altered, Printed, answered, sent};
use crate::masters::altering::altered;
use crate::masters::calls::{Call, Field, Sends, call_of};
use crate::masters::printing::put_whole;
use crate::meanings::{MOST_ROOM, meant, record, room, small};
use crate::printing::put_unknown;
use characters::slices::part;
use master::state::{Master, Step};
use text::fields::word_value;

// A start sends nothing.
#[tactic(auto, unfolding(crate::specs::Masters::Behind::start_row, crate::specs::Masters::Behind::did_row, crate::specs::Masters::Printing::did_text))]
fn start(row: &[u8], out: &mut [u8]) -> Printed<Master>
    ensures { (result.state, (result.length, out.new)) ≡ printed (start_row row.now) out.old }
{
    let step = Master::start(small(row, 2), word_value(row, 3));
    sent(step.master, step.answer, row, &[], out)
}

// A hearing of the bytes that a row's text means: an array and a count, since there is no heap.
fn hear(m: Master, row: &[u8], output: &mut [u8]) -> Step
    ensures { (result.master, (told_of result.answer, output.new)) ≡ hear_of m (word_value 2 row.now) (bytes_at 4 row.now) output.old }
{
    let mut bytes = [0u8; 256];
    let n = meant(row, 4, &mut bytes);
    master::hearing::hear(m, word_value(row, 2), part(&bytes, 0, n), output)
}

// A call that may send.
// A match on the call, as the desk's calls.rt says. The call and its row stay apart: a record or a frame is made of the row only where the call takes it.
fn make(m: Master, sends: Sends, row: &[u8], output: &mut [u8]) -> Step
    ensures { (result.master, (told_of result.answer, output.new)) ≡ made_of m sends row.now output.old }
{
    match sends {
        Sends::Tick => m.tick(word_value(row, 2), output),
        Sends::Offer => m.offer(word_value(row, 2), record(row, 4), output),
        Sends::Hear => hear(m, row, output),
    }
}

// The call with an output of the row's room.
#[tactic(auto, unfolding(crate::specs::Masters::Behind::did_row, crate::specs::Masters::Printing::did_text))]
fn make_in(
    m: Master,
    sends: Sends,
    row: &[u8],
    output: &mut [u8],
    out: &mut [u8],
) -> Printed<Master>
    ensures { (result.state, (result.length, out.new)) ≡ printed (did_row row.now (made_of m sends row.now output.old)) out.old }
{
    let step = make(m, sends, row, output);
    sent(step.master, step.answer, row, output, out)
}

fn make_row(m: Master, sends: Sends, row: &[u8], out: &mut [u8]) -> Printed<Master>
    ensures { (result.state, (result.length, out.new)) ≡ printed (make_row m sends row.now) out.old }
{
    let mut output = [b'#'; MOST_ROOM];
    make_in(m, sends, row, &mut output[..room(row)], out)
}

#[tactic(auto, unfolding(crate::specs::Masters::Behind::altering_row, crate::specs::Masters::Printing::altered_text))]
fn alter(m: Master, field: Field, row: &[u8], out: &mut [u8]) -> Printed<Master>
    ensures { (result.state, (result.length, out.new)) ≡ printed (alter_row m field row.now) out.old }
{
    answered(altered(m, field, small(row, 3)), Altered, row, out)
}

// What is due, asked of a master that stays as it is.
#[tactic(auto, unfolding(crate::specs::Masters::Behind::due_row, crate::specs::Masters::Printing::asked_text))]
fn ask(m: Master, row: &[u8], out: &mut [u8]) -> Printed<Master>
    ensures { (result.state, (result.length, out.new)) ≡ printed (due_row m row.now) out.old }
{
    answered(m, m.due(word_value(row, 2)), row, out)
}

// Each end has calls of its own, so this match and the desk's are two.
fn on_call(m: Master, call: Call, row: &[u8], out: &mut [u8]) -> Printed<Master>
    ensures { (result.state, (result.length, out.new)) ≡ printed (call_row m call row.now) out.old }
{
    match call {
        Call::Start => start(row, out),
        Call::Sends(sends) => make_row(m, sends, row, out),
        Call::Alter(field) => alter(m, field, row, out),
        Call::Due => ask(m, row, out),
        Call::Show => Printed {
            state: m,
            length: put_whole(out, row, &m),
        },
        Call::Unknown => Printed {
            state: m,
            length: put_unknown(out, row),
        },
    }
}

#[tactic(auto, unfolding(crate::specs::Masters::Behind::on_row))]
pub fn on_row(m: Master, row: &[u8], out: &mut [u8]) -> Printed<Master>
    ensures { (result.state, (result.length, out.new)) ≡ printed (on_row m row.now) out.old }
{
    on_call(m, call_of(row), row, out)
}
