// Strings from standard input, each after a byte that counts its bytes: in hexadecimal, and
// whether it is text.
use console::input::read_full;
use console::print;
use numbers::text::is_utf8;
use std::io::{Stdin, Stdout};

fn line(stdout: Stdout, s: &[u8]) {
    print::bytes(stdout, s);
    if is_utf8(s) {
        print::text(stdout, b"text\n");
    } else {
        print::text(stdout, b"no\n");
    }
}

fn lines(stdout: Stdout, s: &[u8]) {
    let mut rest = s;
    while let Some((n, from)) = rest.split_first() {
        let Some((string, after)) = from.split_at_checked(usize::from(*n)) else {
            return print::text(stdout, b"cut short\n");
        };
        line(stdout, string);
        rest = after;
    }
}

pub(crate) fn list_input(stdin: Stdin, stdout: Stdout) {
    // No function allocates, so the room is fixed, and n says how much of it was read.
    let mut space = [0u8; 4096];
    let n = read_full(stdin, &mut space);
    lines(stdout, &space[..n]);
}
