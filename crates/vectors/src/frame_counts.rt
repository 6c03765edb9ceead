// All strings of no, one, two and three bytes: what the functions of frames answer, counted, and how many
// answers differ from the plain ones.
use crate::all_strings::AllStrings;
use crate::plain_frames::{self, Answer};
use frames::read::{Part, one_record, previous_record, previous_start, value};
use frames::refusal::Refusal;
use std::io::Stdout;

fn refused(refusal: Refusal) -> Answer {
    let number = usize::from(refusal.number());
    match refusal {
        Refusal::ShortSpan | Refusal::EndsDiffer => Answer::Later(number),
        _ => Answer::Missing(number),
    }
}

// What each function of frames answers, here and below, in the plain reading's terms.
fn of_record(record: Result<usize, usize>) -> Answer {
    match record {
        Ok(n) => Answer::Found(n, 0),
        Err(n) => Answer::Missing(n),
    }
}

fn of_value(value: Result<Part, Refusal>) -> Answer {
    match value {
        Ok(part) => Answer::Found(part.start, part.end),
        Err(refusal) => refused(refusal),
    }
}

fn of_start(start: Result<usize, Refusal>) -> Answer {
    match start {
        Ok(position) => Answer::Found(position, 0),
        Err(refusal) => refused(refusal),
    }
}

// As in `tally`, counts are added without a bound.
#[derive(Clone, Copy)]
struct Tally {
    found: u64,
    missing: u64,
    later: u64,
    differ: u64,
}

impl Tally {
    fn new() -> Tally {
        Tally {
            found: 0,
            missing: 0,
            later: 0,
            differ: 0,
        }
    }

    // One string more, and what frames and the plain reading say of it.
    fn add(&mut self, said: Answer, plain: Answer) {
        match said {
            Answer::Found(..) => self.found = self.found.wrapping_add(1),
            Answer::Missing(_) => self.missing = self.missing.wrapping_add(1),
            Answer::Later(_) => self.later = self.later.wrapping_add(1),
        }
        if said != plain {
            self.differ = self.differ.wrapping_add(1);
        }
    }
}

// The four functions, each with its counts.
#[derive(Clone, Copy)]
struct Tallies {
    record: Tally,
    value: Tally,
    start: Tally,
    previous: Tally,
}

fn count_all(strings: AllStrings) -> Tallies {
    let mut tallies = Tallies {
        record: Tally::new(),
        value: Tally::new(),
        start: Tally::new(),
        previous: Tally::new(),
    };
    for i in 0..strings.count {
        let bytes = i.to_le_bytes();
        let s = &bytes[..strings.len];
        tallies
            .record
            .add(of_record(one_record(s)), plain_frames::record(s));
        tallies
            .value
            .add(of_value(value(s)), plain_frames::value(s));
        tallies
            .start
            .add(of_start(previous_start(s)), plain_frames::start(s));
        tallies
            .previous
            .add(of_start(previous_record(s)), plain_frames::previous(s));
    }
    tallies
}

// The numbers of the refusals stand in the text.
fn line(stdout: Stdout, strings: AllStrings) {
    let len = strings.len;
    let count = strings.count;
    let _ = print!(stdout; "{len} bytes, {count} strings: ");
    let tallies = count_all(strings);
    let t = tallies.record;
    let _ = print!(stdout;
        "{} whole, {} unfinished, {} differ; ",
        t.found, t.missing, t.differ
    );
    let t = tallies.value;
    let _ = print!(stdout; "{} contents, {} refused with 1, ", t.found, t.missing);
    let _ = print!(stdout; "{} with 2, {} differ; ", t.later, t.differ);
    let t = tallies.start;
    let _ = print!(stdout;
        "{} starts, {} refused with 6, {} differ; ",
        t.found, t.missing, t.differ
    );
    let t = tallies.previous;
    let _ = print!(stdout; "{} found, {} refused with 6, ", t.found, t.missing);
    let _ = print!(stdout; "{} with 16, {} differ\n", t.later, t.differ);
}

pub(crate) fn list(stdout: Stdout) {
    for len in 0..=3 {
        line(stdout, AllStrings::of(len));
    }
}
