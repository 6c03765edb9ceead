// All strings of one, two and three bytes: how many are text, and on how many the verdict differs
// from the plain one.
use crate::all_strings::AllStrings;
use crate::text::is_text;
use numbers::text::is_utf8;
use std::io::Stdout;

// As in `tally`, counts are added without a bound.
fn line(stdout: Stdout, strings: AllStrings) {
    let len = strings.len;
    let count = strings.count;
    let mut text = 0u64;
    let mut differ = 0u64;
    for i in 0..count {
        let bytes = i.to_le_bytes();
        let s = &bytes[..len];
        let verdict = is_utf8(s);
        text = text.wrapping_add(u64::from(verdict));
        differ = differ.wrapping_add(u64::from(verdict != is_text(s)));
    }
    let _ = print!(stdout; "{len} bytes: {text} of {count} strings are text, ");
    let _ = print!(stdout; "{differ} verdicts differ\n");
}

pub(crate) fn list(stdout: Stdout) {
    for len in 1..=3 {
        line(stdout, AllStrings::of(len));
    }
}
