// The book of a list: its accepted calls, and where the frame of each starts and ends.
ghost use Rattle.std.specs.Prelude.{◌≤◌};

use crate::calls::Call;
use crate::rules::{Taken, taken_of};
use crate::shown::{SHOWN, Shown};
use records::bytes::bytes;

#[derive(Clone, Copy)]
pub(crate) struct Entry<'a> {
    pub(crate) call: Call<'a>,
    pub(crate) from: usize,
    pub(crate) to: usize,
}

// A list has sixty calls. The memory is fixed, so the count stands beside it.
#[derive(Drop)]
pub(crate) struct Book<'a> {
    entries: [Entry<'a>; 60],
    count: usize,
    ghost held: { count ≤ 60 },
}

impl<'a> Book<'a> {
    pub(crate) fn new() -> Book<'a> {
        let call = Call {
            t: 0,
            a: 0,
            b: 0,
            c: 0,
            slice: &[],
        };
        let none = Entry {
            call,
            from: 0,
            to: 0,
        };
        Book {
            entries: [none; 60],
            count: 0,
        }
    }

    pub(crate) fn entries(&self) -> &[Entry<'a>] {
        &self.entries[..self.count]
    }

    pub(crate) fn enter(&mut self, call: Call<'a>, from: usize, to: usize) {
        if self.count < 60 {
            let call = kept(call);
            self.entries[self.count] = Entry { call, from, to };
            self.count += 1;
        }
    }
}

// The call as the book keeps it: without a slice, where its type takes none.
fn kept(call: Call) -> Call {
    match taken_of(call.t) {
        Taken::Nothing => Call { slice: &[], ..call },
        _ => call,
    }
}

// No derived equality, here and below: what is read and the book's entry are two types, with some fields in common.
fn same_frame(shown: Shown, entry: &Entry) -> bool {
    shown.sort == SHOWN && shown.from == entry.from && shown.to == entry.to
}

fn same_numbers(shown: Shown, call: Call) -> bool {
    shown.t == call.t && shown.a == call.a && shown.b == call.b && shown.c == call.c
}

// Whether the reading of s shows the record that the book has.
pub(crate) fn shows(s: &[u8], shown: Shown, entry: &Entry) -> bool {
    let call = entry.call;
    same_frame(shown, entry) && same_numbers(shown, call) && bytes(s, shown.part) == call.slice
}
