// Runs a script from standard input: calls of one desk and one master, a row each, and what each answers. docs/SCENES.md has the rows in full.
//
//     desk start LINE                  master start LINE TIME
//     desk tick TIME                   master tick TIME ROOM
//     desk hear TIME ROOM FRAME        master hear TIME ROOM FRAME
//     desk queue RECORD                master offer TIME ROOM RECORD
//     desk set RECORD
//     desk key BYTES
//     desk show                        master show
//     desk alter FIELD N               master alter FIELD N
//     elapsed NOW START
//
// A RECORD is a type and its values as decimal numbers, B 125 90 120 88. A FRAME is bytes: < for LF, > for CR, =HH for the byte HH hex.
// An empty row and one that begins with # are only said again; any other row that names no call is said to be none.
#![tactic(auto)]

mod ends;
mod script;

use stdio::input::called_alone;

// What a row prints has room: it is said again, 1,024 bytes and LF, and an answer has under 1,500.
fn main(rt: HostRuntime) {
    if !called_alone(rt, b"usage: scenes < SCRIPT\n") {
        return;
    }
    let mut buf = [0u8; 65536];
    let mut row = [0u8; 1024];
    let mut out = [0u8; 4096];
    script::run(rt, &mut buf, &mut row, &mut out);
}
