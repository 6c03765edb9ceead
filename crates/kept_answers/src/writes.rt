// A line that asks for a record to be written, `w TYPE N0 N1 N2 BYTES`: the bytes that are written.
use crate::ROOM;
use crate::input::{decode, wide_number};
use crate::tokens::tokens;
use console::print;
use std::io::Stdout;
use trace_c::aglimtaq_write;

// What aglimtaq_write leaves of the record in an output that has room.
fn written(stdout: Stdout, record: &[u64; 4], bytes: &[u8], form: u64) {
    // No function allocates, so the room is fixed, and the position says how much of it is written.
    let mut out = [0u8; ROOM];
    let mut position = [0, form, 0, 0, 0, 0];

    // C's number of a refusal, or 0.
    let refused = aglimtaq_write(&mut out, &mut position, record, bytes);
    if refused != 0 {
        return print::labelled(stdout, b"refused ", refused);
    }
    match out.get(..position[0] as usize) {
        Some(record) => tokens(stdout, record),
        None => print::text(stdout, b"beyond the output"),
    }
}

// The four numbers that follow a `w`, each after a space, and the text after them.
fn asked(text: &[u8]) -> ([u64; 4], &[u8]) {
    let mut record = [0; 4];
    let mut rest = text;
    for number in &mut record {
        let (value, after) = wide_number(rest);
        *number = value;
        rest = after;
    }
    (record, rest)
}

// The bytes of the record that the text after a `w` asks for. What the record holds is decoded into the lent bytes.
// There is no answer where the text holds no input.
pub fn write_line(stdout: Stdout, text: &[u8], bytes: &mut [u8], form: u64) -> Option<()> {
    let (record, rest) = asked(text);
    let (_, line) = rest.split_first()?;
    written(stdout, &record, decode(line, bytes)?, form);
    Some(())
}
