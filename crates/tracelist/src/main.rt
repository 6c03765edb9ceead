// Lists the records of a trace: document 01, "Listing". The trace is read from standard input, 65,536 bytes at most.
#![tactic(auto)]

ghost use Rattle.std.specs.Prelude.{◌≤◌, length};

mod line;
mod listing;
mod text;

use console::failure::say_unwritten;
use console::input::{is_all, read_full};
use listing::list;
use std::io::{Stderr, Stdout};

// Lists the trace. Where that cannot be written, a message says so.
fn show(stdout: Stdout, stderr: Stderr, s: &[u8])
    requires { length s.now ≤ 65536 }
{
    if list(stdout, s).is_err() {
        say_unwritten(stderr, b"tracelist");
    }
}

// No function allocates, so the space has the largest size, and n tells how much of it is the trace.
fn main(rt: HostRuntime) {
    let mut space = io::large_buffer();
    let n = read_full(rt.stdin(), &mut space);
    if is_all(rt.stdin(), rt.stdout(), rt.stderr(), n, b"tracelist") {
        show(rt.stdout(), rt.stderr(), &space[..n]);
    }
}
