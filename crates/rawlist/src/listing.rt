// The listing of a trace, line by line, as long as the iterator gives records.
use crate::record::{kind, number};
use console::print;
use raw::raw_record::RawRecord;
use raw::trace_buffer::TraceBufferIter;
use records::address::AddressForm;
use records::position::{Answer, Position};
use std::io::Stdout;

// The line of a framed record: where it starts, and what its own bytes tell.
fn put_record(stdout: Stdout, start: usize, record: RawRecord<'_>) {
    print::count(stdout, start as u64, b" ");
    print::count(stdout, record.len() as u64, b" ");
    print::byte(stdout, kind(record));
    print::count(stdout, number(record) as u64, b"\n");
}

// The last line: a record that wants more bytes, or the end.
fn put_last(stdout: Stdout, at: usize, answer: Answer) {
    match answer {
        Answer::Unfinished(wanted) => {
            print::labelled(stdout, b"unfinished ", at as u64);
            print::labelled(stdout, b" ", wanted as u64);
        }
        _ => print::labelled(stdout, b"end ", at as u64),
    }
    print::text(stdout, b"\n");
}

// The listing of s. Where the iterator gives no record, its own `next` says why.
pub fn list(stdout: Stdout, s: &[u8]) {
    let mut trace = TraceBufferIter {
        buffer: s,
        position: Position::start(AddressForm::Le64),
    };
    let mut start = 0;
    while let Some(record) = Iterator::next(&mut trace) {
        put_record(stdout, start, record);
        start = trace.position.at;
    }
    put_last(stdout, start, trace.next());
}
