// One desk and one master, and what a row does to them.
// rt stands apart, as stdio says.
use desk::state::Desk;
use master::state::Master;
use scripts::ends::Printed;
use scripts::kinds::{Kind, kind_of};
use scripts::printing::{put_comment, put_elapsed, put_unknown};
use stdio::output::write_out;

#[derive(Clone, Copy)]
pub(crate) struct Ends {
    pub desk: Desk,
    pub master: Master,
}

// Before any start both ends are the blank states of line 0.
pub(crate) fn blank() -> Ends {
    Ends {
        desk: Desk::start(0).desk,
        master: Master::start(0, 0).master,
    }
}

// A function for each end: one for both would take the end out of the two, and put it back, by closures.
fn desk_row(ends: Ends, row: &[u8], out: &mut [u8]) -> Printed<Ends> {
    let printed = scripts::desks::behind::on_row(ends.desk, row, out);
    Printed {
        state: Ends {
            desk: printed.state,
            ..ends
        },
        length: printed.length,
    }
}

fn master_row(ends: Ends, row: &[u8], out: &mut [u8]) -> Printed<Ends> {
    let printed = scripts::masters::behind::on_row(ends.master, row, out);
    Printed {
        state: Ends {
            master: printed.state,
            ..ends
        },
        length: printed.length,
    }
}

// A row of neither end: elapsed time, a comment, or a row that names no call.
fn other_row(kind: Kind, row: &[u8], out: &mut [u8]) -> usize {
    match kind {
        Kind::Elapsed => put_elapsed(out, row),
        Kind::Comment => put_comment(out, row),
        _ => put_unknown(out, row),
    }
}

// The kind is data of the script, so this is a match.
fn behind(ends: Ends, row: &[u8], out: &mut [u8]) -> Printed<Ends> {
    match kind_of(row) {
        Kind::Desk => desk_row(ends, row, out),
        Kind::Master => master_row(ends, row, out),
        kind => Printed {
            state: ends,
            length: other_row(kind, row, out),
        },
    }
}

// Both ends behind a row, whose text is written; None where it cannot be.
pub(crate) fn on_row(rt: HostRuntime, ends: Ends, row: &[u8], out: &mut [u8]) -> Option<Ends> {
    let printed = behind(ends, row, out);
    write_out(rt, out, printed.length, b"scenes: writing")?;
    Some(printed.state)
}
