// What to do where a read or a write fails.
// rt stands apart, as lib.rt says.
use crate::output::complain;
use std::io::{Error, ErrorKind};
use std::thread;
use std::time::Duration;

// What has just failed is to be done again where a signal came between, or where the other end is not ready and gets its turn first. Else None: standard error
// says what failed, and the system's words for why, without its number.
pub(crate) fn try_again(rt: HostRuntime, name: &[u8], error: Error) -> Option<()> {
    match error.kind() {
        ErrorKind::Interrupted => Some(()),
        ErrorKind::WouldBlock => {
            thread::sleep(&rt, Duration::from_millis(1));
            Some(())
        }
        _ => {
            fail(rt, name, error);
            None
        }
    }
}

fn fail(rt: HostRuntime, name: &[u8], error: Error) {
    complain(rt, name);
    match format!(in rt.alloc(); ": {error}") {
        Ok(text) => {
            match text.as_str().split_once(" (os error ") {
                Some((words, _)) => complain(rt, words.as_bytes()),
                None => complain(rt, text.as_bytes()),
            }
        }
        Err(_) => complain(rt, b": out of memory"),
    }
    complain(rt, b"\n");
}
