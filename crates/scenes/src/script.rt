// A script, row by row.
// rt stands apart, as stdio says.
use crate::ends;
use characters::slices::part;
use stdio::input::read_more;

// Where a piece of the input is read, how many bytes it has, how many a row has so far, and whether more may come.
// The buffers are lent by main and stand beside their counts: fixed memory, no heap.
#[derive(Clone, Copy)]
struct Input {
    at: usize,
    end: usize,
    filled: usize,
    more: bool,
}

// A piece more of the input; none where it is at its end, or where the read fails.
// 0 serves for both: trouble is said by then, and the script ends where it comes.
fn refilled(rt: HostRuntime, input: Input, buf: &mut [u8]) -> Input {
    let end = read_more(rt, buf, 0, b"scenes: reading").unwrap_or(0);
    Input {
        at: 0,
        end,
        more: end != 0,
        ..input
    }
}

// With one byte more in the row; what has no room in it is dropped.
fn taken(input: Input, row: &mut [u8], b: u8) -> Input {
    let n = input.filled;
    if row.len() <= n {
        return input;
    }
    row[n] = b;
    Input {
        filled: n + 1,
        ..input
    }
}

// The input behind its next row, which ends at LF; the last may lack it. None where no row is left. A proved loop has to end, so it has a last turn, which no run
// comes to.
fn next_row(rt: HostRuntime, input: Input, buf: &mut [u8], row: &mut [u8]) -> Option<Input> {
    let mut next = Input { filled: 0, ..input };
    for _ in 0..u64::MAX {
        if !next.more {
            return (next.filled != 0).then_some(next);
        }
        match part(buf, next.at, next.end.saturating_sub(next.at)) {
            [] => next = refilled(rt, next, buf),
            [first, ..] => {
                let b = *first;
                next.at = next.at.wrapping_add(1);
                if b == b'\n' {
                    return Some(next);
                }
                next = taken(next, row, b);
            }
        }
    }
    None
}

// Row after row, as long as what each prints can be written.
// It has a last turn as next_row has.
pub(crate) fn run(rt: HostRuntime, buf: &mut [u8], row: &mut [u8], out: &mut [u8]) -> Option<()> {
    let mut both = ends::blank();
    let mut input = Input {
        at: 0,
        end: 0,
        filled: 0,
        more: true,
    };
    for _ in 0..u64::MAX {
        input = next_row(rt, input, buf, row)?;
        both = ends::on_row(rt, both, part(row, 0, input.filled), out)?;
    }
    None
}
