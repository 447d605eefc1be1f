// Text put into an output at a place: what has no room is dropped, and the answer is the place behind what was put.
ghost use Rattle.std.specs.Prelude.{◌≡◌, [], ◌∷◌};
ghost use Rattle.text.specs.Putting.{puts};

// put_ functions and no Display: the bytes of each row are promised one by one, frames have bytes that are no text, and there is no heap.
#[tactic(auto, unfolding(crate::specs::Putting::puts))]
pub fn put_byte(out: &mut [u8], at: usize, byte: u8) -> usize
    ensures { (result, out.new) ≡ puts (byte ∷ []) at out.old }
{
    if at < out.len() {
        out[at] = byte;
        return at + 1;
    }
    at
}

// As much of a text as has room, copied in one go.
// Never inlined: beside the copy of a whole text, whose length is known at most calls, the two would become one copy of a length that is not.
#[inline(never)]
fn put_cut(out: &mut [u8], at: usize, text: &[u8]) -> usize
    ensures { (result, out.new) ≡ puts text.now at out.old }
{
    if out.len() <= at {
        return at;
    }
    let n = text.len().min(out.len() - at);
    out[at..at + n].copy_from_slice(&text[..n]);
    at + n
}

// A text that all has room is copied in one go.
pub fn put_text(out: &mut [u8], at: usize, text: &[u8]) -> usize
    ensures { (result, out.new) ≡ puts text.now at out.old }
{
    if out.len() <= at {
        return at;
    }
    if out.len() - at < text.len() {
        return put_cut(out, at, text);
    }
    let end = at + text.len();
    out[at..end].copy_from_slice(text);
    end
}
