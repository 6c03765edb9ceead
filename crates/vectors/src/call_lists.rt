// Forty lists of sixty calls, each in one of the four address forms, and written to a buffer whose length
// is drawn and which holds a part of the pool before.
use crate::book::Book;
use crate::calls::{Call, next_call};
use crate::lines::numbers;
use crate::pool::{ANY, Pool};
use crate::random::Random;
use crate::readings::Written;
use crate::rules::rule;
use crate::slices::{part, remainder};
use crate::tally::Tally;
use crate::write::write;
use std::io::Stdout;

// A list's form, and how far it has come: the codec's position, and the book with its end position.
#[derive(Drop)]
struct List<'a> {
    form: u64,
    at: usize,
    end: usize,
    book: Book<'a>,
}

impl<'a> List<'a> {
    // One call, of the codec and in the book.
    fn call(&mut self, out: &mut [u8], call: Call<'a>, tally: &mut Tally) {
        let ruling = rule(self.form, call, out.len(), self.end);
        let said = write(self.form, out, self.at, call);
        self.at = said.at;
        tally.called(said.verdict);
        tally.verdicts.add(said.verdict.err() == ruling.err());
        if let Ok(to) = ruling {
            self.book.enter(call, self.end, to);
            self.end = to;
        }
        tally.positions.add(self.at == self.end);
    }

    fn line(&self, stdout: Stdout, out: &[u8]) {
        let n = [
            self.form,
            out.len() as u64,
            self.book.entries().len() as u64,
            self.end as u64,
            remainder(out),
        ];
        numbers(stdout, b"form, lent, records, end, remainder:", &n, b"\n");
    }

    // What was written, compared with the book. The bytes from the end position on are as they were.
    fn check(&self, out: &[u8], before: &[u8], tally: &mut Tally) {
        for (now, then) in out.iter().zip(before).skip(self.end) {
            tally.beyond.add(now == then);
        }
        let written = Written {
            form: self.form,
            bytes: part(out, 0, self.end),
            book: self.book.entries(),
        };
        written.read_all(tally);
    }
}

// What all lists share.
#[derive(Drop)]
struct Lists<'a> {
    stdout: Stdout,
    pool: &'a Pool,
    random: Random,
    tally: Tally,
}

impl<'a> Lists<'a> {
    // The calls of a list.
    fn write(&mut self, form: u64, out: &mut [u8]) -> List<'a> {
        let mut list = List {
            form,
            at: 0,
            end: 0,
            book: Book::new(),
        };
        for _ in 0..60 {
            let call = next_call(form, self.pool, &mut self.random);
            list.call(out, call, &mut self.tally);
        }
        list
    }

    // One list, written over a part of the pool.
    fn run(&mut self, form: u64) {
        let lent = 300 + self.random.draw(3000) as usize;
        let start = ANY + self.random.draw(60000) as usize;
        let pool = self.pool;
        let before = &pool[start..start + lent];

        // No function allocates, so the room is for the longest buffer, and the first `lent` bytes are lent.
        let mut buffer = [0u8; 3500];
        let out = &mut buffer[..lent];
        out.copy_from_slice(before);
        let list = self.write(form, out);
        list.line(self.stdout, out);
        list.check(out, before, &mut self.tally);
    }
}

pub(crate) fn run(stdout: Stdout, pool: &Pool, random: Random) {
    let mut lists = Lists {
        stdout,
        pool,
        random,
        tally: Tally::new(),
    };
    for i in 0..40 {
        lists.run(i % 4);
    }
    lists.tally.report(stdout);
}
