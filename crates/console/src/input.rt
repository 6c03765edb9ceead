// Standard input. `read_full` fills a buffer; `is_all` tells, for the programs that list a trace of 65,536 bytes at
// most, whether that was all: document 01, "Listing".
ghost use Rattle.std.specs.Prelude.{◌≤◌, length};

use crate::failure::{say_unread, say_unwritten};
use std::io::{Read, Stderr, Stdin, Stdout};

// How many bytes of a trace are listed at most.
const MOST: usize = 65536;

// Reads until the buffer is full, the input ends or a read fails, and hands back how many bytes it put at the start of
// the buffer. The loop is by hand: `read_exact` does not say how many bytes came before the end.
pub fn read_full(mut stdin: Stdin, buffer: &mut [u8]) -> usize
    ensures { result ≤ length buffer.new }
{
    let mut done = 0;
    while done < buffer.len() {
        match stdin.read(&mut buffer[done..]) {
            Ok(0) | Err(_) => break,
            Ok(n) => done += n,
        }
    }
    done
}

fn say_too_long(stdout: Stdout, stderr: Stderr, program: &[u8]) {
    if stdout.write_all(b"too long\n").is_err() {
        say_unwritten(stderr, program);
    }
}

// Whether the n bytes that the program has read are all of standard input. Where they are not, a message says why. One
// more read tells: if a read failed before, this one fails too, or finds a byte after it.
pub fn is_all(mut stdin: Stdin, stdout: Stdout, stderr: Stderr, n: usize, program: &[u8]) -> bool {
    match stdin.read(&mut [0u8; 1]) {
        Ok(0) => return true,
        Ok(_) if n == MOST => say_too_long(stdout, stderr, program),
        Ok(_) | Err(_) => say_unread(stderr, program),
    }
    false
}
