// How a block is laid out, for whatever has one: what is put, filled, compared and taken (rules F5, F7, F8).
// put_ functions and no Display: the bytes of a block are no text.
ghost use Rattle.std.specs.Prelude.{◌≡◌, ℕ, ◌*◌, ◌<◌, ◌^◌, List, length};
ghost use Rattle.text.specs.Fields.{same_text};
ghost use Rattle.text.specs.Putting.{puts};
ghost use Rattle.blocks.specs.Layout.{joined, each, filled};
ghost use Rattle.blocks.specs.States.{loaded};

use characters::slices::part;
use std::array::from_fn;
use text::fields::same;

// What has bytes of its own, always as many.
pub trait Put: Copy {
    const LENGTH: usize;

    ghost LENGTH: { ℕ };

    ghost bytes_of: { Self → List ℕ };

    // Puts the bytes at a place, and answers the place behind them.
    fn put(self, out: &mut [u8], at: usize) -> usize
        ensures put { (result, out.new) ≡ puts (bytes_of self) at out.old }
        ensures whole { length (bytes_of self) ≡ LENGTH };
}

// What is made again of bytes.
pub trait Take: Put {
    ghost made_of: { List ℕ → Self };

    fn take(bytes: &[u8]) -> Self
        ensures { result ≡ made_of bytes.now };
}

// What is loaded from a block of its own, and something else from bytes that are no such block.
pub(crate) trait Loaded: Take {
    ghost blank: { Self };

    // What stands for bytes that are no block: made only where it is asked for.
    fn blank() -> Self
        ensures { result ≡ blank };
}

// Puts things one behind the other.
pub(crate) fn put_each<T: Put>(out: &mut [u8], at: usize, xs: &[T]) -> usize
    ensures { (result, out.new) ≡ puts (joined T.bytes_of xs.now) at out.old }
{
    let mut place = at;
    for x in xs {
        place = x.put(out, place);
    }
    place
}

// Takes things that stand one behind the other.
pub(crate) fn take_each<T: Take, const N: usize>(s: &[u8]) -> [T; N]
    requires { T.LENGTH * N < 2 ^ 32 }
    ensures { result ≡ each T.LENGTH T.made_of N s.now }
{
    from_fn(|i| T::take(part(s, T::LENGTH * i, T::LENGTH)))
}

// Whether bytes are the block of a thing.
pub(crate) fn is_block<T: Put, const N: usize>(x: T, block: &[u8]) -> bool
    requires size { N ≡ T.LENGTH }
    requires small { N < 2 ^ 32 }
    ensures { result ≡ same_text (T.bytes_of x) block.now }
{
    let mut again = [0u8; N];
    x.put(&mut again, 0);
    same(&again, block)
}

// Fills a block of just its length with a thing; any other stays as it was.
pub fn save<T: Put>(x: T, block: &mut [u8])
    ensures { block.new ≡ filled T.LENGTH (T.bytes_of x) block.old }
{
    if block.len() == T::LENGTH {
        x.put(block, 0);
    }
}

// What a block's bytes make; the blank thing where they are not the block of what they make.
pub(crate) fn load<T: Loaded, const N: usize>(block: &[u8]) -> T
    requires size { N ≡ T.LENGTH }
    requires small { N < 2 ^ 32 }
    ensures { result ≡ loaded T.bytes_of T.made_of T.blank block.now }
{
    let x = T::take(block);
    if is_block::<T, N>(x, block) {
        x
    } else {
        T::blank()
    }
}
