// Where an answer of the desk comes from, as rows say it.
// put_ functions and no Display, as tellings.rt says.
ghost use Rattle.std.specs.Prelude.{◌≡◌};
ghost use Rattle.desk.specs.Replying.{origin_of};
ghost use Rattle.text.specs.Putting.{puts};
ghost use Rattle.scripts.specs.Tellings.Sources.{key_text, origin_text};

use crate::printing::put_behind;
use desk::replying::Source;
use text::putting::{put_byte, put_text};

fn put_key(out: &mut [u8], at: usize, key: u8) -> usize
    ensures { (result, out.new) ≡ puts (key_text key) at out.old }
{
    let a = put_text(out, at, b"key ");
    put_byte(out, a, key)
}

// Where an answer comes from.
#[tactic(auto, unfolding(crate::specs::Tellings::Sources::contents_text))]
pub fn put_source(out: &mut [u8], at: usize, s: Source) -> usize
    ensures { (result, out.new) ≡ puts (origin_text (origin_of s)) at out.old }
{
    match s {
        Source::Requested => put_text(out, at, b"requested"),
        Source::Queue => put_text(out, at, b"queue"),
        Source::Key(key) => put_key(out, at, key),
        Source::Panel(rec) => put_behind(out, at, b"panel ", rec),
        Source::Contents(r) => put_behind(out, at, b"contents ", r),
        Source::NotMaster => put_text(out, at, b"not the master's"),
        Source::NothingSet => put_text(out, at, b"nothing set"),
    }
}
