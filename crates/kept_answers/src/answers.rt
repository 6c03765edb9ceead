// The walk over an input: what reading answers from 0 on, up to the first answer that frames no record.
use crate::names::names_in;
use console::print;
use std::io::Stdout;
use trace_c::aglimtaq_read_next;

// What a reading says, by its number in C: enum aglimtaq_answer of include/trace.h. These stay numbers, since C's
// function answers with them.
const SHOWN: u64 = 0;

const REFUSED_AT: u64 = 1;

const REFUSED: u64 = 2;

const FINISHED: u64 = 3;

const UNFINISHED: u64 = 4;

// The type of a register list there: enum aglimtaq_type.
const REGISTER_NAME_MAP: u64 = 3;

// Where a framed record starts, how many bytes it has, and 0 or the number of the refusal.
fn frame(stdout: Stdout, reading: &[u64; 10]) {
    let [_, number, start, end, ..] = *reading;
    let length = end.wrapping_sub(start);
    let _ = print!(stdout; "{start} {length} {number}");
}

// The type of a record, its numbers and its part of the bytes; and of a register list the names.
fn shown(stdout: Stdout, bytes: &[u8], reading: &[u64; 10]) {
    for &number in &reading[4..] {
        print::labelled(stdout, b" ", number);
    }
    let [.., start, end] = *reading;
    if reading[4] == REGISTER_NAME_MAP {
        names_in(stdout, bytes, start as usize, end as usize);
    }
}

// The answer that ends a walk, and where it ends.
fn last(stdout: Stdout, at: u64, reading: &[u64; 10]) {
    let [answer, number, ..] = *reading;
    match answer {
        REFUSED => print::labelled(stdout, b"refused ", number),
        FINISHED => print::labelled(stdout, b"end ", at),
        UNFINISHED => {
            let _ = print!(stdout; "unfinished {at} {number}");
        }
        _ => print::text(stdout, b"no such answer"),
    }
}

// The answers to an input in an address form. There are at most as many records as bytes. A call that frames a record
// leaves its end in `position`, so after the last call the walk's end stands there.
pub fn answer(stdout: Stdout, bytes: &[u8], form: u64) {
    // The structs of include/trace.h, which are arrays of numbers here.
    let mut reading = [0u64; 10];
    let mut position = [0, form, 0, 0, 0, 0];
    for _ in 0..=bytes.len() {
        aglimtaq_read_next(bytes, &mut position, &mut reading);
        match reading[0] {
            SHOWN => {
                frame(stdout, &reading);
                shown(stdout, bytes, &reading);
            }
            REFUSED_AT => frame(stdout, &reading),
            _ => return last(stdout, position[0], &reading),
        }
        print::text(stdout, b"; ");
    }
    print::text(stdout, b"more records");
}
