// The last bytes of a buffer, moved to its front (rule P5).
ghost use Rattle.std.specs.Prelude.{◌≡◌};
ghost use Rattle.pieces.specs.Tails.{tail_put};

// The bytes from a place up to an end, moved to the front, and how many they are.
// Buffer, place and end stay arguments: there is no heap, and the buffer is the caller's.
pub fn keep_tail(buf: &mut [u8], from: usize, end: usize) -> usize
    ensures { (result, buf.new) ≡ tail_put from end buf.old }
{
    let end = end.min(buf.len());
    if end <= from {
        return 0;
    }
    buf.copy_within(from..end, 0);
    end - from
}
