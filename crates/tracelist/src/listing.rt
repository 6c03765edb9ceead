// The listing of a trace, line by line, written in large pieces.
ghost use Rattle.std.specs.Prelude.{◌≡◌, ◌++◌, ◌+◌, ◌≤◌, ◌<◌, length, Ok, Some};
ghost use Rattle.numbers.specs.Lists.{part};
ghost use Rattle.tracelist.specs.Listing.{listing};
ghost use Rattle.tracelist.specs.Inner.{listed_from, rest, left, Within};

use crate::line::{Line, line_at};
use crate::text::{MOST, Text};
use std::io::{Error, Stdout};

// Puts one line, that of what is at an offset, after the text: where the listing goes on after it, if it does.
fn push_next(text: &mut Text, s: &[u8], at: usize) -> Option<usize>
    requires { (length text.old + 96 ≤ 65536) × (at ≤ length s.now) }
    ensures more_after { text.new ++ rest s.now result ≡ text.old ++ listed_from s.now at }
    ensures next { Within s.now result × (left s.now result < left s.now (Some at)) }
{
    let line = line_at(s, at);
    text.push_line(line);
    match line {
        Line::Record { start, length, .. } => Some(start + length),
        Line::End(_) | Line::Unfinished { .. } => None,
    }
}

// Makes the text of the lines from an offset on, while there are more and the longest line fits: where the listing goes
// on after them, if it does.
fn fill(text: &mut Text, s: &[u8], from: usize) -> Option<usize>
    requires { from ≤ length s.now }
    ensures more_after { text.new ++ rest s.now result ≡ listed_from s.now from }
    ensures next { Within s.now result × (left s.now result < left s.now (Some from)) }
{
    text.clear();
    let mut next = push_next(text, s, from);
    while let Some(at) = next
        && text.len() <= MOST
    {
        next = push_next(text, s, at);
    }
    next
}

// Writes a piece. The contract of std's `write_all` cannot say which bytes are written. So this one requires that the
// bytes it is handed are those of the listing of s from offset `written` on.
fn write_piece(stdout: Stdout, text: &Text, s: &[u8], written: usize) -> Result<(), Error>
    requires { text.now ≡ part (listing s.now) written (length text.now) }
{
    stdout.write_all(text.bytes())
}

// Writes the listing of s piece by piece, up to the first that cannot be written, and hands back how many bytes it has.
// No contract can say what reaches standard output. `write_piece` requires that each piece begins where the one before
// it ends, and `list` ensures that the last ends the listing, unless a write failed.
pub fn list(stdout: Stdout, s: &[u8]) -> Result<usize, Error>
    requires { length s.now ≤ 65536 }
    ensures { (n : _) → result ≡ Ok n → n ≡ length (listing s.now) }
{
    let mut text = Text::new();
    let mut written = 0;
    let mut next = Some(0);
    while let Some(at) = next {
        next = fill(&mut text, s, at);
        write_piece(stdout, &text, s, written)?;
        written += text.len();
    }
    Ok(written)
}
