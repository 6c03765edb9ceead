// The written bytes read on and back in the list's form, whole and cut short, and compared with the book.
use crate::book::{Entry, shows};
use crate::rules::width;
use crate::shown::{FINISHED, Shown, UNFINISHED, next, previous};
use crate::tally::{Readings, Tally};

// What was written of a list: its form, its bytes or those before a cut, and the book's entries.
#[derive(Clone, Copy)]
pub(crate) struct Written<'a> {
    pub(crate) form: u64,
    pub(crate) bytes: &'a [u8],
    pub(crate) book: &'a [Entry<'a>],
}

// Three fields of the answer say how a reading ends, so no equality of the whole serves.
fn ends(last: Shown, sort: u64, number: u64, next: usize) -> bool {
    last.sort == sort && last.number == number && last.next == next
}

// "Where it leaves m bytes of a frame, at least one and not all, the number wanted is 1 + width for m up to
// width, otherwise the number of all the frame's bytes."
fn number_wanted(m: usize, t: u64, n: usize) -> u64 {
    let width = width(t, n);
    let number = if m <= width { 1 + width } else { n };
    number as u64
}

// The last answer at a cut: the end, unless the cut leaves bytes of the frame of an entry.
fn cut_end(last: Shown, k: usize, entry: Option<&Entry>, readings: &mut Readings) -> bool {
    match entry {
        Some(entry) if entry.from < k && k < entry.to => {
            let number = number_wanted(k - entry.from, entry.call.t, entry.to - entry.from);
            readings.want(number);
            ends(last, UNFINISHED, number, entry.from)
        }
        _ => ends(last, FINISHED, 0, k),
    }
}

impl<'a> Written<'a> {
    // All records from the last to the first, then the start.
    fn read_back(self, readings: &mut Readings) {
        let mut at = self.bytes.len();
        for entry in self.book.iter().rev() {
            let shown = previous(self.form, self.bytes, at);
            readings.records.add(shows(self.bytes, shown, entry));
            at = shown.next;
        }
        let last = previous(self.form, self.bytes, at);
        readings.ends.add(ends(last, FINISHED, 0, 0));
    }

    // The bytes read on: the records that end by then, then the end or an unfinished frame.
    fn read_on(self, readings: &mut Readings) {
        let len = self.bytes.len();
        let book = self.book;
        let cut = book.iter().position(|entry| entry.to > len);
        let (whole, rest) = book.split_at(cut.unwrap_or(book.len()));
        let mut at = 0;
        for entry in whole {
            let shown = next(self.form, self.bytes, at);
            readings.records.add(shows(self.bytes, shown, entry));
            at = shown.next;
        }
        let last = next(self.form, self.bytes, at);
        let same = cut_end(last, len, rest.first(), readings);
        readings.ends.add(same);
    }

    // Back, then on: all, and all cuts from 0 to the end.
    pub(crate) fn read_all(self, tally: &mut Tally) {
        self.read_back(&mut tally.previous);
        self.read_on(&mut tally.next);
        let bytes = self.bytes;
        for k in 0..bytes.len() {
            let cut = Written {
                bytes: &bytes[..k],
                ..self
            };
            cut.read_on(&mut tally.cuts);
        }
    }
}
