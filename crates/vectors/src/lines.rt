// Parts of lines: numbers, and the bytes at both ends of a slice.
use console::print;
use std::io::Stdout;

// Numbers with a space before each, and what stands before and after them.
pub(crate) fn numbers(stdout: Stdout, before: &[u8], n: &[u64], after: &[u8]) {
    print::text(stdout, before);
    for &number in n {
        print::labelled(stdout, b" ", number);
    }
    print::text(stdout, after);
}

// Up to 44 bytes; of more the first three and the last five.
pub(crate) fn edges(stdout: Stdout, s: &[u8]) {
    print::text(stdout, b"; ");
    if s.len() <= 44 {
        return print::bytes(stdout, s);
    }
    print::bytes(stdout, &s[..3]);
    print::text(stdout, b".. ");
    print::bytes(stdout, &s[s.len() - 5..]);
}
