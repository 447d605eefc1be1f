// What the blocks of states share: counts, truths, and the four bytes that both ends begin with.
// put_ functions and no Display, as layout.rt says.
ghost use Rattle.std.specs.Prelude.{◌≡◌};
ghost use Rattle.text.specs.Putting.{puts};
ghost use Rattle.blocks.specs.Heads.{count_byte, flag_byte, head_bytes};

use text::putting::put_byte;

// A count as a byte; 255, which no count may be, where it is larger.
pub fn count_byte(n: usize) -> u8
    ensures { result ≡ count_byte n }
{
    u8::try_from(n).unwrap_or(255)
}

// 1 or 0.
pub fn flag_byte(on: bool) -> u8
    ensures { result ≡ flag_byte on }
{
    u8::from(on)
}

// Puts an end's line, whether it is good, its number and one byte more.
pub(crate) fn put_head(
    out: &mut [u8],
    at: usize,
    line: u8,
    good: bool,
    number: u8,
    more: u8,
) -> usize
    ensures { (result, out.new) ≡ puts (head_bytes line good number more) at out.old }
{
    let a = put_byte(out, at, line);
    let b = put_byte(out, a, flag_byte(good));
    let c = put_byte(out, b, number);
    put_byte(out, c, more)
}
