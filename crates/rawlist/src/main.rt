// Lists the records of a trace as `tracelist` does, by the structs that hold references: the iterator finds each
// record, and `RawRecord` tells the rest from its bytes. The trace is read from standard input, 65,536 bytes at most.
#![tactic(auto)]

mod listing;
mod record;

use console::input::{is_all, read_full};
use listing::list;

// No function allocates, so the space has the largest size, and n tells how much of it is the trace.
fn main(rt: HostRuntime) {
    let mut space = [0u8; 65536];
    let n = read_full(rt.stdin(), &mut space);
    if is_all(rt.stdin(), rt.stdout(), rt.stderr(), n, b"rawlist") {
        list(rt.stdout(), &space[..n]);
    }
}
