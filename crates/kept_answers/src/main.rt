// Reads lines from standard input, 393,216 bytes at most, and prints this codec's answer to each, in the line's address
// form: to an input, the walk over it from 0 on; to a record, the bytes that are written. `stdin` has the lines, and
// `stdout` what the original Rust answered to them. Their first lines say how they were made.
#![tactic(auto)]

mod answers;
mod input;
mod lines;
mod names;
mod tokens;
mod writes;

use console::input::read_full;
use console::print;
use lines::answer_lines;

// Room for the bytes of an input, and for a record that is written.
const ROOM: usize = 66048;

// How many bytes of lines are read at most.
const MOST: usize = 393216;

fn main(rt: HostRuntime) {
    // One byte more tells whether there are too many.
    let mut space = [0u8; 393217];
    let n = read_full(rt.stdin(), &mut space);
    if n > MOST {
        print::text(rt.stdout(), b"too long\n");
    } else {
        answer_lines(rt.stdout(), &space[..n]);
    }
}
