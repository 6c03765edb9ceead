// Examples of writing in the address forms of document 02's M-100, with refusal 14 beside what is just
// accepted, after 8 and before 9. A line is as in the examples of document 01, with the form first and two
// numbers.
use crate::calls::Call;
use crate::lines::{edges, numbers};
use crate::pool::{ANY, Pool};
use crate::slices::part;
use crate::write_examples::written;
use std::io::Stdout;

// To each example its form, its type, its numbers, how many bytes its slice has, and the position:
// Instruction, Unmap and Map in the three new forms; Pc and Unmap at the border of four bytes; CallEnd,
// whose address is not in the form; Instruction with 253, 254, 65,530 and 65,531 bytes of content, of which
// the address has 4, and the last again at an address that is too wide; Pc at the end of the buffer and
// beyond it. An example is a tuple: with the names of a struct's fields it would not stand on one line.
static EXAMPLES: [(u64, u64, u64, u64, usize, usize); 25] = [
    (1, 7, 4096, 0, 3, 3),
    (1, 6, 8192, 258, 0, 3),
    (1, 5, 8192, 0, 0, 3),
    (2, 7, 4096, 0, 3, 3),
    (2, 6, 8192, 258, 0, 3),
    (2, 5, 8192, 0, 0, 3),
    (3, 7, 4096, 0, 3, 3),
    (3, 6, 8192, 258, 0, 3),
    (3, 5, 8192, 0, 0, 3),
    (1, 8, 4294967296, 0, 0, 3),
    (2, 8, 4294967295, 0, 0, 3),
    (2, 8, 4294967296, 0, 0, 3),
    (3, 6, 4294967295, 4294967295, 0, 3),
    (3, 6, 4294967296, 4294967295, 0, 3),
    (3, 6, 4294967295, 4294967296, 0, 3),
    (3, 14, 4294967296, 0, 0, 3),
    (3, 7, 4096, 0, 249, 3),
    (3, 7, 4096, 0, 250, 3),
    (2, 7, 4096, 0, 65526, 3),
    (2, 7, 4096, 0, 65527, 3),
    (2, 7, 4294967296, 0, 65527, 3),
    (2, 8, 4294967296, 0, 0, 65601),
    (2, 8, 4294967296, 0, 0, 65600),
    (2, 8, 7, 0, 0, 65594),
    (2, 8, 7, 0, 0, 65593),
];

pub(crate) fn list(stdout: Stdout, pool: &Pool) {
    for &(form, t, a, b, len, from) in &EXAMPLES {
        let slice = part(pool, ANY, len);
        let n = [form, t, a, b, slice.len() as u64, from as u64];
        numbers(stdout, b"form, type, numbers, bytes, at:", &n, b"");
        edges(stdout, slice);
        let call = Call {
            t,
            a,
            b,
            c: 0,
            slice,
        };
        written(stdout, form, call, from);
    }
}
