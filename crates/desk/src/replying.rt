// The choice of an answer to a handled telegram (rules D9 to D13).
ghost use Rattle.std.specs.Prelude.{◌≡◌};
ghost use Rattle.desk.specs.Deciding.{matter_of};
ghost use Rattle.desk.specs.Replying.{origin_of, rejected_by, key_on, asked_of, polled_of};
ghost use Rattle.desk.specs.Queue.{oldest, reply_to};

use crate::deciding::Matter;
use crate::state::Desk;
use forms::lines::line_of;
use records::records::Record;
use records::refusals::Refusal;

// Where an answer to a handled telegram comes from.
#[derive(Clone, Copy)]
pub enum Source {
    // r: the record set for it
    Requested,
    // t: the oldest queued record
    Queue,
    // t with an empty queue: A, with what it carries
    Key(u8),
    // other types: A, and the record goes to the panel
    Panel(Record),
    // N with A: contents refused 8 to 11
    Contents(Refusal),
    // N with A: a type the master does not send on this line
    NotMaster,
    // N with A: no record is set for r
    NothingSet,
}

// The record that answers, and where it comes from.
#[derive(Clone, Copy)]
pub struct Reply {
    pub rec: Record,
    pub source: Source,
}

// r: the record set for it, else N with A.
fn asked(wanted: Option<Record>) -> Reply
    ensures { (result.rec, origin_of result.source) ≡ asked_of wanted }
{
    match wanted {
        Some(rec) => Reply {
            rec,
            source: Source::Requested,
        },
        None => rejected(Source::NothingSet),
    }
}

// What A carries when it answers t: the key position on a line that has one, else A.
#[tactic(auto, unfolding(crate::specs::Replying::key_on))]
fn key_on(line: u8, key: u8) -> u8
    ensures { result ≡ key_on line key }
{
    if line_of(line).keyed { key } else { b'A' }
}

// t: the oldest queued record, else A.
#[tactic(auto, unfolding(crate::specs::Replying::polled_of))]
fn polled(desk: Desk) -> Reply
    ensures { (result.rec, origin_of result.source) ≡ polled_of desk.line desk.key desk.queued (oldest desk) }
{
    if desk.queued == 0 {
        let key = key_on(desk.line, desk.key);
        return Reply {
            rec: Record::Approved(u32::from(key)),
            source: Source::Key(key),
        };
    }
    Reply {
        rec: desk.queue[0].rec,
        source: Source::Queue,
    }
}

// N with A, and its cause.
fn rejected(source: Source) -> Reply
    ensures { (result.rec, origin_of result.source) ≡ rejected_by source }
{
    Reply {
        rec: Record::Rejected(u32::from(b'A')),
        source,
    }
}

// The answer of a desk to a handled telegram.
pub(crate) fn choose(desk: Desk, matter: Matter) -> Reply
    ensures { (result.rec, origin_of result.source) ≡ reply_to desk (matter_of matter) }
{
    match matter {
        Matter::Contents(refusal) => rejected(Source::Contents(refusal)),
        Matter::NotMaster => rejected(Source::NotMaster),
        Matter::Request => asked(desk.requested),
        Matter::Poll => polled(desk),
        Matter::Other(rec) => Reply {
            rec: Record::Approved(u32::from(b'A')),
            source: Source::Panel(rec),
        },
    }
}
