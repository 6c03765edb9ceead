// The names of a register list.
use console::print;
use std::io::Stdout;

// An entry: its number, and where its name lies in the list.
fn name(stdout: Stdout, entry: &[u64; 4]) {
    let [number, start, end, _] = *entry;
    let _ = print!(stdout; " {number}:{start}:{end}");
}

// All entries of a list. It has at most one for each byte.
fn names(stdout: Stdout, list: &[u8]) {
    // C's struct aglimtaq_name, whose last number is where the next entry starts; 0 says that there is none.
    let mut entry = [0u64; 4];
    for _ in 0..=list.len() {
        let at = entry[3] as usize;
        if trace_c::aglimtaq_next_name(list, at, &mut entry) == 0 {
            return;
        }
        name(stdout, &entry);
    }
    print::text(stdout, b" more names");
}

// The names of the list that is a part of the bytes.
pub fn names_in(stdout: Stdout, bytes: &[u8], start: usize, end: usize) {
    match bytes.get(start..end) {
        Some(list) => names(stdout, list),
        None => print::text(stdout, b" no such part"),
    }
}
