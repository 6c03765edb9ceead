// Document 01's examples of writing, with a longer content of document 02's M-101, and each of 01's
// refusals of writing beside what is just accepted, but for 10, which would take 4 GB. A line has the call
// and its bytes, those written, 0 or the number of the refusal, the position handed back, and the remainder
// of the whole buffer, which held aa everywhere before. All are in form 0.
use crate::calls::Call;
use crate::lines::{edges, numbers};
use crate::pool::Pool;
use crate::shown::{Shown, next, previous};
use crate::slices::{part, remainder};
use crate::write::{Said, write};
use console::print;
use records::bytes::bytes;
use std::io::Stdout;

// To each example its type, its first number, where its slice lies in the pool and how many bytes it has,
// and the position: Instruction with 253, 254, 65,530 and 65,531 bytes of content, of which the address has
// 8; Map; CallBegin with five names; Pc at the end of the buffer and beyond it; more names, of 33, 32, 3
// bytes and none; unknown Meta and FileMeta; register lists. An example is a tuple: with the names of a struct's fields
// it would not stand on one line.
static EXAMPLES: [(u64, u64, usize, usize, usize); 28] = [
    (7, 4096, 2048, 245, 3),
    (7, 4096, 2048, 246, 3),
    (7, 4096, 2048, 65522, 3),
    (7, 4096, 2048, 65523, 3),
    (5, 8192, 0, 0, 3),
    (12, 0, 0, 3, 3),
    (12, 0, 3, 4, 3),
    (12, 0, 7, 2, 3),
    (12, 0, 9, 3, 3),
    (12, 0, 12, 4, 3),
    (8, 7, 0, 0, 65601),
    (8, 7, 0, 0, 65600),
    (8, 7, 0, 0, 65590),
    (8, 7, 0, 0, 65589),
    (12, 0, 16, 33, 3),
    (12, 0, 16, 32, 3),
    (12, 0, 49, 3, 3),
    (12, 0, 0, 0, 3),
    (21, 0, 16, 1, 3),
    (21, 11, 16, 1, 3),
    (21, 12, 16, 1, 3),
    (4, 0, 16, 1, 3),
    (4, 1, 16, 1, 3),
    (3, 0, 0, 0, 3),
    (3, 1, 52, 5, 3),
    (3, 1, 52, 4, 3),
    (3, 2, 52, 5, 3),
    (3, 1, 52, 7, 3),
];

// The frame of a CallBegin with the first 32 bytes of a name, and address 0.
fn name_frame(name: &[u8]) -> [u8; 44] {
    let mut frame = [0u8; 44];
    frame[0] = 0x31;
    frame[1] = 0x2a;
    frame[2] = 3;
    let n = name.len().min(32);
    frame[3..3 + n].copy_from_slice(&name[..n]);
    frame[43] = 0x2b;
    frame
}

// What a reading says: the name; 0 for a record or 1 for a refusal, its number, the frame, the next
// position.
fn told(stdout: Stdout, frame: &[u8], shown: Shown) {
    let n = [
        shown.sort,
        shown.number,
        shown.from as u64,
        shown.to as u64,
        shown.next as u64,
    ];
    print::bytes(stdout, bytes(frame, shown.part));
    numbers(stdout, b"answer, number, from, to, next:", &n, b"\n");
}

fn read_name(stdout: Stdout, name: &[u8]) {
    let frame = name_frame(name);
    told(stdout, &frame, next(0, &frame, 0));
    told(stdout, &frame, previous(0, &frame, 44));
}

// What is written of a call in a form and at a place.
pub(crate) fn written(stdout: Stdout, form: u64, call: Call, from: usize) {
    let mut out = [0xaau8; 65600];
    let Said { verdict, at: to } = write(form, &mut out, from, call);
    if from < to {
        edges(stdout, part(&out, from, to - from));
    }
    let number = verdict.err().unwrap_or(0);
    let n = [number, to as u64, remainder(&out)];
    numbers(stdout, b"; says, to, remainder:", &n, b"\n");
}

pub(crate) fn list(stdout: Stdout, pool: &Pool) {
    for &(t, a, start, len, from) in &EXAMPLES {
        let slice = part(pool, start, len);
        let n = [t, a, slice.len() as u64, from as u64];
        numbers(stdout, b"type, number, bytes, at:", &n, b"");
        edges(stdout, slice);
        let call = Call {
            t,
            a,
            b: 0,
            c: 0,
            slice,
        };
        written(stdout, 0, call, from);
        if t == 12 {
            read_name(stdout, slice);
        }
    }
}
