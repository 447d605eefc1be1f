// A turn of a replay (rules Q9 to Q14).
// captures::turn is built alike on a listing's state: what both do is in pieces, and what is left names the fields of its own state.
ghost use Rattle.std.specs.Prelude.{◌≡◌, ◌≤◌, length};
ghost use Rattle.records.specs.Answers.{outcome_of};
ghost use Rattle.recordings.specs.Replay.Texts.{row_room};
ghost use Rattle.recordings.specs.Replay.Turn.{ended, opened_of, last_of, carried_on, turn_of};

use crate::replay::part::{ROW_ROOM, put_refused, replay_part};
use crate::replay::state::{Replayer, begun, turn_check, wants_for};
use characters::slices::{byte_at, part};
use pieces::line::{bad_line, line_named};
use pieces::tails::keep_tail;
use pieces::wants::Wants;
use records::refusals::Refusal;
use text::putting::put_text;

// The state behind a turn, and how many bytes of the output are to be written, or its refusal.
// One Step<S, A> for all is no plainer: the clauses say whose state it is, `result.replayer`.
#[derive(Clone, Copy)]
pub struct Step {
    pub replayer: Replayer,
    pub answer: Result<usize, Refusal>,
}

// All is said.
fn ended(replayer: Replayer) -> Replayer
    ensures { result ≡ ended replayer }
{
    Replayer {
        wants: Wants::End,
        ..replayer
    }
}

// The input is at its end: bytes that are still held are a record cut off.
fn last(replayer: Replayer, out: &mut [u8]) -> Step
    requires { row_room ≤ length out.old }
    ensures { (result.replayer, (outcome_of result.answer, out.new)) ≡ last_of replayer out.old }
{
    if replayer.held == 0 {
        return Step {
            replayer: ended(replayer),
            answer: Ok(0),
        };
    }
    let filled = put_refused(out, 20, replayer.base);
    Step {
        replayer: ended(replayer),
        answer: Ok(filled),
    }
}

// Replays the first n bytes of the buffer; the bytes behind their records are kept in front.
// n stands beside the buffer: what is kept goes to the front of all of it.
fn carry_on(replayer: Replayer, buf: &mut [u8], n: usize, out: &mut [u8]) -> Step
    ensures { (result.replayer, (outcome_of result.answer, (buf.new, out.new))) ≡ carried_on replayer buf.old n out.old }
{
    let replayed = replay_part(replayer, part(buf, 0, n), out);
    keep_tail(buf, replayed.next, n);
    Step {
        replayer: Replayer {
            desk: replayed.desk,
            ordinal: replayed.ordinal,
            base: std::num::wrapping_add_u64(replayer.base, replayed.next as u64),
            held: n.saturating_sub(replayed.next),
            wants: wants_for(replayed.stop),
        },
        answer: Ok(replayed.filled),
    }
}

// An output with no room for a row is refused 14. The input's first byte names the line; where it names none, or there is no byte, `no 15 0` is all that is said.
pub fn open(first: &[u8], out: &mut [u8]) -> Step
    ensures { (result.replayer, (outcome_of result.answer, out.new)) ≡ opened_of first.now out.old }
{
    if out.len() < ROW_ROOM {
        return Step {
            replayer: begun(0),
            answer: Err(Refusal::NoRoom),
        };
    }
    // 0 is no line, as pieces::line::line_named promises.
    let line = line_named(byte_at(first, 0));
    if line == 0 {
        let filled = put_text(out, 0, &bad_line());
        return Step {
            replayer: ended(begun(line)),
            answer: Ok(filled),
        };
    }
    Step {
        replayer: begun(line),
        answer: Ok(0),
    }
}

// A turn: got bytes were read behind those held, none where the input has ended; rows are put from the front of the output.
// What a state wants is kept between turns, so it is matched. got stands beside the buffer, as the read answers it.
pub fn replay(replayer: Replayer, buf: &mut [u8], got: usize, out: &mut [u8]) -> Step
    ensures { (result.replayer, (outcome_of result.answer, (buf.new, out.new))) ≡ turn_of replayer buf.old got out.old }
{
    if let Err(refusal) = turn_check(replayer, buf.len(), got, out.len()) {
        return Step {
            replayer,
            answer: Err(refusal),
        };
    }
    let n = replayer.held + got;
    match replayer.wants {
        Wants::Read => {
            if got == 0 {
                return last(replayer, out);
            }
            carry_on(replayer, buf, n, out)
        }
        Wants::Again => carry_on(replayer, buf, n, out),
        Wants::End => Step {
            replayer: ended(replayer),
            answer: Ok(0),
        },
    }
}
