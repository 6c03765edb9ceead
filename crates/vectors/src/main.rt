// Outside vectors, run and compared: text, numbers and copies for the crate numbers; frames for the crate
// frames; examples of writing and lists of calls for the crate records. `expected.py` makes `stdin` and
// `stdout`, from documents 01 and 02, RFC 3629 and Python's own text, integers and bytes.
#![tactic(auto)]

mod all_strings;
mod book;
mod call_lists;
mod calls;
mod copies;
mod form_examples;
mod forms;
mod frame_counts;
mod frames_written;
mod lines;
mod plain_frames;
mod pool;
mod random;
mod readings;
mod rules;
mod shown;
mod slices;
mod strings;
mod tally;
mod text;
mod text_counts;
mod widths;
mod write;
mod write_examples;

use random::Random;
use std::io::{Stdin, Stdout};

fn numbers(stdin: Stdin, stdout: Stdout) {
    strings::list_input(stdin, stdout);
    text_counts::list(stdout);
    widths::list(stdout);
    copies::list(stdout);
}

fn frames(stdout: Stdout) {
    frame_counts::list(stdout);
    frames_written::list(stdout);
}

// The examples and the lists take their slices of one pool. One generator draws the pool and the lists.
fn records(stdout: Stdout) {
    let mut pool = [0u8; 68048];
    let mut random = Random::new();
    pool::fill(&mut pool, &mut random);
    write_examples::list(stdout, &pool);
    form_examples::list(stdout, &pool);
    call_lists::run(stdout, &pool, random);
}

fn main(rt: HostRuntime) {
    numbers(rt.stdin(), rt.stdout());
    frames(rt.stdout());
    records(rt.stdout());
}
