// What is due of an end.
// put_ functions and no Display, as tellings.rt says.
ghost use Rattle.std.specs.Prelude.{◌≡◌};
ghost use Rattle.clock.specs.Due.{when_of};
ghost use Rattle.text.specs.Putting.{puts};
ghost use Rattle.scripts.specs.Tellings.Due.{due_text};

use crate::printing::number;
use crate::tellings::InWords;
use clock::due::Due;
use text::items::put_refusal;
use text::putting::put_text;

pub fn put_due(out: &mut [u8], at: usize, due: Due) -> usize
    ensures { (result, out.new) ≡ puts (due_text (when_of due)) at out.old }
{
    match due {
        Err(r) => put_refusal(out, at, r),
        Ok(None) => put_text(out, at, b"due never"),
        Ok(Some(n)) => number(out, at, b"due after ", n as u64),
    }
}

impl InWords for Due {
    ghost words = { λ due. due_text (when_of due) };

    fn put(self, out: &mut [u8], at: usize) -> usize {
        put_due(out, at, self)
    }
}
