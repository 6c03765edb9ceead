// How many comparisons were made of each kind, and how many differ; and other counts.
use crate::lines::numbers;
use console::print;
use std::io::Stdout;

// Comparisons of one kind. Counts are added without a bound: none comes near 2^64.
#[derive(Clone, Copy)]
pub(crate) struct Compared {
    made: u64,
    differ: u64,
}

impl Compared {
    fn new() -> Compared {
        Compared { made: 0, differ: 0 }
    }

    pub(crate) fn add(&mut self, same: bool) {
        self.made = self.made.wrapping_add(1);
        self.differ = self.differ.wrapping_add(u64::from(!same));
    }

    fn line(self, stdout: Stdout, kind: &[u8]) {
        numbers(stdout, kind, &[self.made, self.differ], b"\n");
    }
}

// Readings: the records, and what is answered after the last of them. Where that is a number wanted, a part of
// a frame is left: how often, and the sum of the numbers.
#[derive(Clone, Copy)]
pub(crate) struct Readings {
    pub(crate) records: Compared,
    pub(crate) ends: Compared,
    unfinished: u64,
    wanted: u64,
}

impl Readings {
    fn new() -> Readings {
        Readings {
            records: Compared::new(),
            ends: Compared::new(),
            unfinished: 0,
            wanted: 0,
        }
    }

    pub(crate) fn want(&mut self, number: u64) {
        self.unfinished = self.unfinished.wrapping_add(1);
        self.wanted = self.wanted.wrapping_add(number);
    }
}

#[derive(Drop)]
pub(crate) struct Tally {
    // Calls that the codec accepted, refused with 8, with 9, and so on to 14.
    calls: [u64; 8],
    pub(crate) verdicts: Compared,
    pub(crate) positions: Compared,
    pub(crate) beyond: Compared,
    pub(crate) next: Readings,
    pub(crate) previous: Readings,
    pub(crate) cuts: Readings,
}

impl Tally {
    pub(crate) fn new() -> Tally {
        Tally {
            calls: [0; 8],
            verdicts: Compared::new(),
            positions: Compared::new(),
            beyond: Compared::new(),
            next: Readings::new(),
            previous: Readings::new(),
            cuts: Readings::new(),
        }
    }

    pub(crate) fn called(&mut self, verdict: Result<(), u64>) {
        let i = match verdict {
            Ok(()) => 0,
            Err(number) => number.saturating_sub(7) as usize,
        };
        if let Some(count) = self.calls.get_mut(i) {
            *count = count.wrapping_add(1);
        }
    }

    pub(crate) fn report(&self, stdout: Stdout) {
        numbers(
            stdout,
            b"calls, accepted, refused with 8 to 14:",
            &self.calls,
            b"\n",
        );
        print::text(stdout, b"compared, and of these differ\n");
        self.verdicts.line(stdout, b"verdicts:");
        self.positions.line(stdout, b"positions:");
        self.beyond.line(stdout, b"bytes beyond the end:");
        self.next.records.line(stdout, b"records, read on:");
        self.next.ends.line(stdout, b"ends, read on:");
        self.previous.records.line(stdout, b"records, read back:");
        self.previous.ends.line(stdout, b"ends, read back:");
        self.cuts
            .records
            .line(stdout, b"records, read on to a cut:");
        self.cuts.ends.line(stdout, b"ends, read on to a cut:");
        numbers(
            stdout,
            b"cuts that leave a part of a frame, sum of the numbers wanted:",
            &[self.cuts.unfinished, self.cuts.wanted],
            b"\n",
        );
    }
}
