// Writing standard output, and words on trouble to standard error.
// rt stands apart, as lib.rt says.
use crate::trouble::try_again;
use characters::slices::part;
use std::io::{Print, Write};

// Writes the first n bytes, the rest where a write takes only a part; None where they cannot be written. Trouble is said after the words that name the program.
// n stands beside the bytes, as the put_ functions answer it: each caller would have to cut off the front. The last turn is there as in read_more.
pub fn write_out(rt: HostRuntime, out: &[u8], n: usize, name: &[u8]) -> Option<()> {
    let mut rest = part(out, 0, n);
    let mut output = rt.stdout();
    for _ in 0..u64::MAX {
        if rest.is_empty() {
            return Some(());
        }
        match output.write(rest) {
            Ok(put) => rest = &rest[put..],
            Err(error) => try_again(rt, name, error)?,
        }
    }
    None
}

// Says a text on standard error.
pub fn complain(rt: HostRuntime, text: &[u8]) {
    let _ = Print::write_all(&rt.stderr(), text);
}
