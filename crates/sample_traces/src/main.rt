// Makes the samples: reads one digit from standard input and writes the bytes of the trace that it names
// to standard output, 1 boot, 2 ride, 3 foreign, 4 damaged, 5 scratched. For any other input it writes nothing,
// and nothing where a record was refused.
#![tactic(auto)]

mod begin;
mod boot;
mod curve;
mod damaged;
mod foreign;
mod ride;
mod scratched;
mod trace;

use console::input::read_full;
use console::print;
use trace::{Put, Trace};

// Makes the trace that a digit names.
fn make(trace: &mut Trace, digit: u8) -> Put {
    match digit {
        b'1' => boot::boot(trace),
        b'2' => ride::ride(trace),
        b'3' => foreign::foreign(trace),
        b'4' => damaged::damaged(trace),
        b'5' => scratched::scratched(trace),
        _ => Ok(()),
    }
}

fn main(rt: HostRuntime) {
    // A second byte tells whether there is more than a digit.
    let mut input = [0u8; 2];
    if read_full(rt.stdin(), &mut input) != 1 {
        return;
    }
    let mut trace = Trace::new();
    if make(&mut trace, input[0]).is_ok() {
        print::text(rt.stdout(), trace.bytes());
    }
}
