// Bytes as text: pairs of hexadecimal digits, `xx*N` for a byte that comes N times in a row, twelve or more, and `-`
// for no bytes.
use console::print;
use std::io::Stdout;

// From how many times in a row on a byte is written once, with its count.
const LONG: usize = 12;

// The digits of each byte of a run, or of one and how many there are.
fn show(stdout: Stdout, run: &[u8]) {
    if run.len() < LONG {
        for &byte in run {
            print::digits(stdout, byte);
        }
    } else {
        print::digits(stdout, run[0]);
        print::labelled(stdout, b"*", run.len() as u64);
    }
}

// A run that is written as `xx*N` has a space before and after it.
pub fn tokens(stdout: Stdout, s: &[u8]) {
    if s.is_empty() {
        return print::text(stdout, b"-");
    }
    let mut last: Option<&[u8]> = None;
    for run in s.chunk_by(|a, b| a == b) {
        if last.is_some_and(|last| last.len() >= LONG || run.len() >= LONG) {
            print::text(stdout, b" ");
        }
        show(stdout, run);
        last = Some(run);
    }
}
