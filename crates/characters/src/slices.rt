// Reading a slice at any place: no caller need look first.
ghost use Rattle.std.specs.Prelude.{◌≡◌, ◌-◌, ◌<◌, ◌≤◌, ◌++◌, length, take, drop, get_or};

// The byte at a place, 0 past the end.
pub fn byte_at(s: &[u8], at: usize) -> u8
    ensures { result ≡ get_or s.now at 0 }
{
    s.get(at).copied().unwrap_or(0)
}

// As many bytes from a place on as there are, at most count.
// Slice, place and count stay arguments: any place and any count may be asked.
pub fn part(s: &[u8], from: usize, count: usize) -> &[u8]
    ensures { result.now ≡ take count (drop from s.now) }
{
    match s.get(from..) {
        Some(rest) => rest.get(..count).unwrap_or(rest),
        None => &[],
    }
}

// A length less a number of bytes, 0 where it has fewer.
pub fn less(n: usize, k: usize) -> usize
    ensures { result ≡ n - k }
{
    n.saturating_sub(k)
}

// A byte as a number of bytes, to be added to others.
pub fn wide(n: u8) -> usize
    ensures { (result ≡ n) × (result < 256) }
{
    usize::from(n)
}

// Copies a slice to the front of another that has room for all of it, and says how many bytes that are; else it copies nothing.
// 0 and no Option there: docs/PROMISES.md names copy, and its clause full says 0.
pub fn copy(from: &[u8], to: &mut [u8]) -> usize
    ensures count { length from.now ≤ length to.old → result ≡ length from.now }
    ensures bytes { length from.now ≤ length to.old → to.new ≡ take (length from.now) from.now ++ drop (length from.now) to.old }
    ensures full { length to.old < length from.now → (result ≡ 0) × (to.new ≡ to.old) }
{
    let n = from.len();
    if to.len() < n {
        return 0;
    }
    to[..n].copy_from_slice(from);
    n
}
