// The lines of standard input, one after the other.
use crate::ROOM;
use crate::answers::answer;
use crate::input::decode;
use crate::writes::write_line;
use console::print;
use std::io::Stdout;

// A `w` asks for a record to be written. Any other line is an input, decoded into the lent bytes. The address form is
// C's number of it, enum aglimtaq_form of include/trace.h.
fn answer_in(stdout: Stdout, line: &[u8], bytes: &mut [u8], form: u64) -> Option<()> {
    if let [b'w', numbers @ ..] = line {
        return write_line(stdout, numbers, bytes, form);
    }
    answer(stdout, decode(line, bytes)?, form);
    Some(())
}

// A comment is printed as it is. After `@` the form follows, a digit and a space, and then what is asked in it. A line
// that names no form is in form 0. There is no answer to a line that is no input.
fn answer_line(stdout: Stdout, line: &[u8], bytes: &mut [u8]) -> Option<()> {
    match line {
        [b'#', ..] => print::text(stdout, line),
        [b'@', form @ b'1'..=b'3', b' ', asked @ ..] => {
            answer_in(stdout, asked, bytes, u64::from(*form - b'0'))?
        }
        [b'@', ..] => return None,
        _ => answer_in(stdout, line, bytes, 0)?,
    }
    Some(())
}

pub fn answer_lines(stdout: Stdout, text: &[u8]) {
    // No function allocates, so the room is fixed.
    let mut bytes = [0u8; ROOM];
    for part in text.split_inclusive(|b| *b == b'\n') {
        let line = part.strip_suffix(b"\n").unwrap_or(part);
        if answer_line(stdout, line, &mut bytes).is_none() {
            print::text(stdout, b"not an input");
        }
        print::text(stdout, b"\n");
    }
}
