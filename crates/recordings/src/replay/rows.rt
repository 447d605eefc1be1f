// The desk behind a record of a log, and the row that it prints.
// put_row is no Display, as printing.rt says.
ghost use Rattle.std.specs.Prelude.{◌≡◌};
ghost use Rattle.records.specs.Answers.{answer_of};
ghost use Rattle.desk.specs.Heard.{told_of};
ghost use Rattle.recordings.specs.Replay.Rows.{printed, heard_row, hear_row, tick_row, row_of};

use crate::replay::printing::{Opening, put_hearing, put_ticking};
use characters::marks::LONGEST;
use desk::applying::Hearing;
use desk::hearing::hear;
use desk::state::Desk;
use logs::marks::Mark;
use reading::reading::read;
use records::answers::Reading;

// The desk behind a record, beside how many bytes of the output the row prints.
#[derive(Clone, Copy)]
pub struct Rowed {
    pub desk: Desk,
    pub length: usize,
}

// What was heard, what hearing it answered, and what it sent.
#[tactic(auto, unfolding(crate::specs::Replay::Rows::heard_row))]
fn heard(hearing: Hearing, opening: Opening, reading: Reading, sent: &[u8], out: &mut [u8]) -> Rowed
    ensures { (result.desk, (result.length, out.new)) ≡ printed (heard_row opening.ordinal opening.offset opening.time (answer_of reading) (hearing.desk, told_of hearing.answer, sent.now)) out.old }
{
    let length = put_hearing(out, opening, reading, hearing.answer, sent);
    Rowed {
        desk: hearing.desk,
        length,
    }
}

// The desk hears the bytes as one frame, with room enough for any answer.
#[tactic(auto, unfolding(crate::specs::Replay::Rows::hear_row))]
fn hear_row(desk: Desk, opening: Opening, frame: &[u8], out: &mut [u8]) -> Rowed
    ensures { (result.desk, (result.length, out.new)) ≡ printed (hear_row desk opening.ordinal opening.offset opening.time frame.now) out.old }
{
    let mut sent = [0u8; LONGEST];
    let hearing = hear(desk, opening.time, frame, &mut sent);
    let reading = read(desk.line, frame);
    heard(hearing, opening, reading, &sent, out)
}

// The desk gets a tick.
#[tactic(auto, unfolding(crate::specs::Replay::Rows::tick_row, crate::specs::Replay::Rows::ticked_row))]
fn tick_row(desk: Desk, opening: Opening, out: &mut [u8]) -> Rowed
    ensures { (result.desk, (result.length, out.new)) ≡ printed (tick_row desk opening.ordinal opening.offset opening.time) out.old }
{
    let step = desk.tick(opening.time);
    let length = put_ticking(out, opening, step.answer);
    Rowed {
        desk: step.desk,
        length,
    }
}

// What the desk does at a record: it hears a sending by the master, gets a tick at a hit, and passes over one by the slave.
// The mark is data of the log, so this is a match.
#[tactic(auto, unfolding(text::specs::Putting::puts))]
pub(crate) fn put_row(
    desk: Desk,
    mark: Mark,
    opening: Opening,
    bytes: &[u8],
    out: &mut [u8],
) -> Rowed
    ensures { (result.desk, (result.length, out.new)) ≡ printed (row_of mark desk opening.ordinal opening.offset opening.time bytes.now) out.old }
{
    match mark {
        Mark::Master => hear_row(desk, opening, bytes, out),
        Mark::Slave => Rowed { desk, length: 0 },
        Mark::Hit => tick_row(desk, opening, out),
    }
}
