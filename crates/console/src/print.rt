// What `vectors`, `kept_answers`, `rawlist` and `sample_traces` print with, to standard output. Where a write fails,
// what it had left is lost, and nothing is said.
use std::io::Stdout;

pub fn text(stdout: Stdout, s: &[u8]) {
    let _ = stdout.write_all(s);
}

pub fn number(stdout: Stdout, n: u64) {
    let _ = print!(stdout; "{n}");
}

// A number, and a text after it. The text may be any bytes, which `print!` does not take.
pub fn count(stdout: Stdout, n: u64, s: &[u8]) {
    number(stdout, n);
    text(stdout, s);
}

// A number, and a text before it. One function for both orders would need a flag, and be as long as the two.
pub fn labelled(stdout: Stdout, s: &[u8], n: u64) {
    text(stdout, s);
    number(stdout, n);
}

// The two hexadecimal digits of a byte.
pub fn digits(stdout: Stdout, b: u8) {
    let _ = print!(stdout; "{b:02x}");
}

// A byte in hexadecimal, and a space after it: one `print!`, where `digits` and then `text` would be two calls.
pub fn byte(stdout: Stdout, b: u8) {
    let _ = print!(stdout; "{b:02x} ");
}

pub fn bytes(stdout: Stdout, s: &[u8]) {
    for &b in s {
        byte(stdout, b);
    }
}
