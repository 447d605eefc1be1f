// Reading standard input.
// rt stands apart, as lib.rt says.
ghost use Rattle.stdio.specs.Input.{Reads};

use crate::output::complain;
use crate::trouble::try_again;
use std::env::Env;
use std::io::Read;

// Reads into a buffer from a place on, and says trouble after the words that name the program. A proved loop has to end, so it has a last turn, which no run
// comes to.
pub fn read_more(rt: HostRuntime, buf: &mut [u8], from: usize, name: &[u8]) -> Option<usize>
    ensures { Reads result from buf.old buf.new }
{
    if buf.len() <= from {
        complain(rt, name);
        complain(rt, b": no room\n");
        return None;
    }
    let mut input = rt.stdin();
    for _ in 0..u64::MAX {
        match input.read(&mut buf[from..]) {
            Ok(count) => return Some(count),
            Err(error) => try_again(rt, name, error)?,
        }
    }
    None
}

// Reads until the buffer is full or the input ends: how many bytes stand in its front.
pub fn read_full(rt: HostRuntime, buf: &mut [u8], name: &[u8]) -> Option<usize>
    ensures { Reads result 0 buf.old buf.new }
{
    let mut n: usize = 0;
    // No `for`: each read says where the next begins.
    while n < buf.len() {
        let got = read_more(rt, buf, n, name)?;
        if got == 0 {
            return Some(n);
        }
        n = n + got;
    }
    Some(n)
}

// Whether the program was started without an argument, as all of ours are; else it says on standard error how it is called. No Option, since main asks for a yes or
// no, and answers nothing that a `?` could hand on.
pub fn called_alone(rt: HostRuntime, usage: &[u8]) -> bool {
    let mut word = [0u8; 1];
    match rt.arg(1, &mut word) {
        Err(std::env::FillError::NotPresent) => true,
        _ => {
            complain(rt, usage);
            false
        }
    }
}
