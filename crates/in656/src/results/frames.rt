// What a result says of the frame that was heard: read again only where the end did not tell it.
ghost use Rattle.std.specs.Prelude.{◌≡◌};
ghost use Rattle.reading.specs.Reading.{reading_of};
ghost use Rattle.desk.specs.Heard as d;
ghost use Rattle.master.specs.Answers as m;
ghost use Rattle.in656.specs.Results.Frames.{with_reading, with_number_of, desk_frame, ignored_frame, master_frame};

use crate::results::result::In656Result;
use characters::slices::byte_at;
use clock::counters::number_in;
use desk::heard::Heard;
use master::answers::{Answer, Reason};
use reading::reading::read;
use records::refusals::Refusal;

// The refusal that a frame reads as on a line.
// line and frame stay apart here and below: read takes them so, and a struct of both would be opened before each call.
fn with_reading(r: In656Result, line: u8, frame: &[u8]) -> In656Result
    ensures { result ≡ with_reading r (reading_of line frame.now) }
{
    match read(line, frame) {
        Ok(_) => r,
        Err(refusal) => r.with_contents(refusal),
    }
}

// The number of a frame.
fn with_number_of(r: In656Result, frame: &[u8]) -> In656Result
    ensures { result ≡ with_number_of r frame.now }
{
    r.with_number(number_in(byte_at(frame, 4)))
}

// A hearing of the desk.
pub(crate) fn desk_frame(
    r: In656Result,
    answer: Result<Heard, Refusal>,
    line: u8,
    frame: &[u8],
) -> In656Result
    ensures { result ≡ desk_frame (d.told_of answer) line frame.now r }
{
    match answer {
        Err(_) | Ok(Heard::Silent(_, _)) => r,
        Ok(Heard::Fault(_, _) | Heard::Repeat(_)) => {
            with_number_of(with_reading(r, line, frame), frame)
        }
        Ok(Heard::Handled(_, _, _)) => with_number_of(r, frame),
    }
}

// A frame that the master ignores.
fn ignored_frame(r: In656Result, why: Reason, line: u8, frame: &[u8]) -> In656Result
    ensures { result ≡ ignored_frame (m.why_of why) line frame.now r }
{
    match why {
        Reason::Free | Reason::RunOut | Reason::OtherNumber => with_reading(r, line, frame),
        Reason::Refused(_) => r,
    }
}

// A hearing of the master.
pub(crate) fn master_frame(
    r: In656Result,
    answer: Result<Answer, Refusal>,
    line: u8,
    frame: &[u8],
) -> In656Result
    ensures { result ≡ master_frame (m.told_of answer) line frame.now r }
{
    match answer {
        Ok(Answer::Ignored(why)) => ignored_frame(r, why, line, frame),
        _ => r,
    }
}
