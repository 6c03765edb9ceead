// What a reading gives, as numbers to compare: those of include/trace.h, by name.
use crate::forms::form_of;
use frames::read::Part;
use records::position::{Position, Reading};
use trace_c::fields::of_answer;

// These stay numbers: a line prints them, and the rules know nothing of the codec's own types.
pub(crate) const SHOWN: u64 = 0;

pub(crate) const FINISHED: u64 = 3;

pub(crate) const UNFINISHED: u64 = 4;

// The next position; which answer it is; the number of a refusal or the number wanted; the frame; the
// record's type, its numbers, and where its bytes lie.
#[derive(Clone, Copy)]
pub(crate) struct Shown {
    pub(crate) next: usize,
    pub(crate) sort: u64,
    pub(crate) number: u64,
    pub(crate) from: usize,
    pub(crate) to: usize,
    pub(crate) t: u64,
    pub(crate) a: u64,
    pub(crate) b: u64,
    pub(crate) c: u64,
    pub(crate) part: Part,
}

fn shown_by(reading: Reading) -> Shown {
    let [sort, number, from, to, t, a, b, c, start, end] = of_answer(reading.answer);
    Shown {
        next: reading.position.at,
        sort,
        number,
        from: from as usize,
        to: to as usize,
        t,
        a,
        b,
        c,
        part: Part {
            start: start as usize,
            end: end as usize,
        },
    }
}

// Each direction is one line: a function that takes the call as a closure would add some and save none.
pub(crate) fn next(form: u64, s: &[u8], at: usize) -> Shown {
    shown_by(Position::at(at, form_of(form)).read_next(s))
}

pub(crate) fn previous(form: u64, s: &[u8], at: usize) -> Shown {
    shown_by(Position::at(at, form_of(form)).read_previous(s))
}
