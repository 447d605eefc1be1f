// The rows: what is expected stands in the last field, and the first row without a byte ends them.
// Text is put into arrays of fixed size and its front taken by the count that comes back, since there is no heap. rt stands apart, as stdio says.
ghost use Rattle.std.specs.Prelude.{◌≡◌, length};

use crate::runs::{self, Kind, kind_of};
use characters::slices::part;
use stdio::input::read_full;
use stdio::output::write_out;
use text::compared::put_row;
use text::fields::field;
use text::tally::{Tally, put_tally};

// Room for a row's name and expectation, which have under 65,536 bytes, as that is all that is read, and 256 for what came.
pub(crate) fn output() -> [u8; 65792]
    ensures { 65792 ≡ length result }
{
    [0; 65792]
}

// The last field of a row.
fn expected(row: &[u8]) -> &[u8] {
    let last = match kind_of(row) {
        Some(Kind::Read) => 4,
        Some(Kind::Write) => 7,
        Some(Kind::Sum) => 3,
        None => 2,
    };
    field(row, b'|', last)
}

// Writes the first n bytes of an output; None where they cannot be written.
// n stands beside the output, as write_out takes it.
fn say(rt: HostRuntime, out: &[u8], n: usize) -> Option<()> {
    write_out(rt, out, n, b"cases: writing")
}

// Says a row with what came, and counts it; None where it cannot be written.
// damage has an output of its own size: one function for both would take the program's words too, seven parameters in all.
fn told(rt: HostRuntime, row: &[u8], came: &[u8], tally: Tally, out: &mut [u8]) -> Option<Tally> {
    let n = put_row(out, 0, field(row, b'|', 0), expected(row), came);
    say(rt, out, n)?;
    Some(tally.counted(expected(row), came))
}

fn one(rt: HostRuntime, row: &[u8], tally: Tally, out: &mut [u8]) -> Option<Tally> {
    let mut came = [0u8; 128];
    let n = runs::put_came(row, &mut came);
    told(rt, row, part(&came, 0, n), tally, out)
}

// Row after row, as long as each can be written.
fn all(rt: HostRuntime, text: &[u8], out: &mut [u8]) -> Option<Tally> {
    let mut tally = Tally::start();
    for row in text.split(|b| *b == b'\n') {
        if row.is_empty() {
            return Some(tally);
        }
        tally = one(rt, row, tally, out)?;
    }
    Some(tally)
}

pub(crate) fn run(rt: HostRuntime, input: &mut [u8], out: &mut [u8]) -> Option<()> {
    let n = read_full(rt, input, b"cases: reading")?;
    let tally = all(rt, part(input, 0, n), out)?;
    let end = put_tally(out, 0, tally);
    say(rt, out, end)
}
