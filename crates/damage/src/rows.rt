// The rows: how many readings are as the rules give them, of how many.
// Text is put into arrays of fixed size, not made by a Display, and its front taken by the count that comes back: there is no heap.
// rt stands apart, as stdio says.
use crate::telegrams;
use characters::slices::part;
use stdio::output::write_out;
use text::compared::put_row;
use text::numbers::put_number;
use text::putting::put_text;
use text::tally::{Tally, put_tally};

// Says a row, and counts it; None where it cannot be written.
// cases has an output of its own size: one function for both would take the program's words too, seven parameters in all.
fn told(rt: HostRuntime, name: &[u8], expected: &[u8], came: &[u8], tally: Tally) -> Option<Tally> {
    let mut out = [0u8; 256];
    let n = put_row(&mut out, 0, name, expected, came);
    write_out(rt, &out, n, b"damage: writing")?;
    Some(tally.counted(expected, came))
}

// So many of all.
fn put_of(out: &mut [u8], n: u64, all: u64) -> usize {
    let a = put_number(out, 0, n);
    let b = put_text(out, a, b" of ");
    put_number(out, b, all)
}

// The row of n readings that are as is due; all are expected.
fn row(rt: HostRuntime, name: &[u8], n: u64, all: u64, tally: Tally) -> Option<Tally> {
    let mut expected = [0u8; 64];
    let mut came = [0u8; 64];
    let a = put_of(&mut expected, all, all);
    let b = put_of(&mut came, n, all);
    told(rt, name, part(&expected, 0, a), part(&came, 0, b), tally)
}

fn put_name(out: &mut [u8], index: usize, how: &[u8]) -> usize {
    let a = put_text(out, 0, b"h, byte ");
    let b = put_number(out, a, index as u64);
    put_text(out, b, how)
}

// The row of one byte, which takes each of 256 values.
fn byte_row<F: Fn(usize, u8) -> bool>(
    rt: HostRuntime,
    index: usize,
    as_due: &F,
    how: &[u8],
    tally: Tally,
) -> Option<Tally>
    requires { F.IsAlwaysCallable as_due.now }
{
    let mut name = [0u8; 64];
    let n = put_name(&mut name, index, how);
    row(
        rt,
        part(&name, 0, n),
        telegrams::all(index, as_due),
        256,
        tally,
    )
}

// A `for` over the indices, since each is said and passed on, and the tally goes on.
fn byte_rows<F: Fn(usize, u8) -> bool>(
    rt: HostRuntime,
    from: usize,
    to: usize,
    as_due: &F,
    how: &[u8],
    tally: Tally,
) -> Option<Tally>
    requires { F.IsAlwaysCallable as_due.now }
{
    let mut t = tally;
    for index in from..to {
        t = byte_row(rt, index, as_due, how, t)?;
    }
    Some(t)
}

fn all(rt: HostRuntime) -> Option<Tally> {
    let a = byte_rows(
        rt,
        0,
        23,
        &telegrams::replaced_as_due,
        b" replaced",
        Tally::start(),
    )?;
    let b = byte_rows(
        rt,
        3,
        20,
        &telegrams::righted_as_due,
        b" replaced, sum made right",
        a,
    )?;
    row(rt, b"lengths 0 to 4095", telegrams::lengths(), 4096, b)
}

pub(crate) fn run(rt: HostRuntime) -> Option<()> {
    let tally = all(rt)?;
    let mut out = [0u8; 64];
    let n = put_tally(&mut out, 0, tally);
    write_out(rt, &out, n, b"damage: writing")
}
