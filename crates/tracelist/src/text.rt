// The text of the listing, in a buffer: the lines that are not yet written. Each `put_` function takes the offset where
// it puts its text, and hands back the offset after it.
ghost use Rattle.std.specs.Prelude.{◌≡◌, List, ℕ, [], ◌∷◌, ◌++◌, ◌+◌, ◌≤◌, take};
ghost use lib.ListN.{length};
ghost use Rattle.numbers.specs.Lists.{splice};
ghost use Rattle.walk.specs.Walks.{number_in};
ghost use Rattle.tracelist.specs.Listing.{ascii, decimal, two_digits, line_text};

use crate::line::Line;
use frames::refusal::Refusal;
use numbers::copy::copy;
use std::marker::Model;

// The longest line, with room to spare.
pub const LONGEST: usize = 96;

// With at most this many bytes in the buffer, the longest line fits.
pub const MOST: usize = 65536 - LONGEST;

// Its first `len` bytes are the text. The buffer is large, so that few writes are needed. No function allocates, so it
// is an array with a length; the model shows the text alone.
#[derive(Drop)]
pub(crate) struct Text {
    bytes: [u8; 65536],
    len: usize,
}

impl Model for Text {
    ghost Value = { List ℕ };

    ghost view = { λ t. take t.len t.bytes };

    ghost invariant = { λ t. t.len ≤ 65536 };
}

// The number in a record's line: 0 where it is shown, and else that of its refusal.
fn number(refusal: Option<Refusal>) -> u8
    ensures { result ≡ number_in refusal }
{
    refusal.map_or(0, Refusal::number)
}

fn put_word(out: &mut [u8], at: usize, word: &[u8]) -> usize
    requires { at + length word.now ≤ length out.old }
    ensures value { result ≡ at + length word.now }
    ensures out_after { out.new ≡ splice out.old at word.now }
{
    copy(out, at, word);
    at + word.len()
}

// A word, and a byte after it.
fn put_field(out: &mut [u8], at: usize, word: &[u8], after: u8) -> usize
    requires { at + length word.now + 1 ≤ length out.old }
    ensures value { result ≡ at + length (word.now ++ (after ∷ [])) }
    ensures out_after { out.new ≡ splice out.old at (word.now ++ (after ∷ [])) }
{
    let end = put_word(out, at, word);
    out[end] = after;
    end + 1
}

// A number in decimal digits, and a byte after it. `io::decimal`, and `io::hex` below, fill an array that is lent, and
// hand back how much of it they filled.
fn put_number(out: &mut [u8], at: usize, n: usize, after: u8) -> usize
    requires { at + 21 ≤ length out.old }
    ensures value { (result ≡ at + length (decimal n ++ (after ∷ []))) × (result ≤ at + 21) }
    ensures out_after { out.new ≡ splice out.old at (decimal n ++ (after ∷ [])) }
{
    let mut digits = [0u8; 20];
    let k = io::decimal(n as u64, &mut digits);
    put_field(out, at, &digits[..k], after)
}

// A byte in two hexadecimal digits, and a space after it.
fn put_kind(out: &mut [u8], at: usize, kind: u8) -> usize
    requires { at + 3 ≤ length out.old }
    ensures value { result ≡ at + 3 }
    ensures out_after { out.new ≡ splice out.old at (two_digits kind ++ ascii " ") }
{
    let mut digits = [0u8; 16];
    let k = io::hex(kind as u64, 2, &mut digits);
    put_field(out, at, &digits[..k], b' ')
}

// A line. None has more than 96 bytes.
pub fn put_line(out: &mut [u8], at: usize, line: Line) -> usize
    requires { at + 96 ≤ length out.old }
    ensures value { (result ≡ at + length (line_text line)) × (result ≤ at + 96) }
    ensures out_after { out.new ≡ splice out.old at (line_text line) }
{
    match line {
        Line::Record {
            start,
            length,
            kind,
            refusal,
        } => {
            let number = number(refusal);
            let a = put_number(out, at, start, b' ');
            let b = put_number(out, a, length, b' ');
            let c = put_kind(out, b, kind);
            put_number(out, c, number as usize, b'\n')
        }
        Line::End(end) => {
            let a = put_word(out, at, b"end ");
            put_number(out, a, end, b'\n')
        }
        Line::Unfinished { start, wanted } => {
            let a = put_word(out, at, b"unfinished ");
            let b = put_number(out, a, start, b' ');
            put_number(out, b, wanted, b'\n')
        }
    }
}

impl Text {
    pub fn new() -> Text
        ensures { result ≡ [] }
    {
        Text {
            bytes: io::large_buffer(),
            len: 0,
        }
    }

    pub fn len(&self) -> usize
        ensures value { result ≡ length self.now }
        ensures fits { result ≤ 65536 }
    {
        self.len
    }

    pub fn bytes(&self) -> &[u8]
        ensures { result.now ≡ self.now }
    {
        &self.bytes[..self.len]
    }

    pub fn clear(&mut self)
        ensures { self.new ≡ [] }
    {
        self.len = 0;
    }

    pub fn push_line(&mut self, line: Line)
        requires { length self.old + 96 ≤ 65536 }
        ensures text { self.new ≡ self.old ++ line_text line }
        ensures few { length self.new ≤ length self.old + 96 }
    {
        self.len = put_line(&mut self.bytes, self.len, line);
    }
}
