// An input: pairs of hexadecimal digits, `xx*N` for N times a byte, spaces; `-` alone is no byte.
ghost use Rattle.std.specs.Prelude.{◌<◌, ◌≤◌, length, IfSome};

use std::str::from_utf8;

// The value of a hexadecimal digit. Not by `to_digit`, which takes capitals too: an input has none.
fn digit(b: u8) -> Option<u8>
    ensures { IfSome result (λ d. d < 16) }
{
    match b {
        b'0'..=b'9' => Some(b - b'0'),
        b'a'..=b'f' => Some(b - b'a' + 10),
        _ => None,
    }
}

// The decimal digits that a text begins with, and the text after them.
fn split_digits(text: &[u8]) -> (&[u8], &[u8])
    ensures { length result.1.now ≤ length text.now }
{
    let end = text.iter().position(|b| !b.is_ascii_digit());
    text.split_at(end.unwrap_or(text.len()))
}

// The number of 64 bits that a text has after its first byte, a space, modulo 2^64; and the text after it.
pub fn wide_number(text: &[u8]) -> (u64, &[u8])
    ensures { length result.1.now ≤ length text.now }
{
    let Some((_, from)) = text.split_first() else {
        return (0, text);
    };
    let (digits, rest) = split_digits(from);

    // By hand, since `parse` refuses what goes beyond 64 bits. A digit's value is its low four bits.
    let value = digits.iter().fold(0u64, |value, b| {
        value.wrapping_mul(10).wrapping_add(u64::from(b & 15))
    });
    (value, rest)
}

// How many times a byte is repeated, as the number after a star says, or once; and the text after that.
fn split_times(text: &[u8]) -> Option<(usize, &[u8])>
    ensures { IfSome result (λ split. length split.1.now ≤ length text.now) }
{
    let Some(from) = text.strip_prefix(b"*") else {
        return Some((1, text));
    };
    let (digits, rest) = split_digits(from);
    let times = from_utf8(digits).ok()?.parse().ok()?;
    Some((times, rest))
}

// A byte, how many times it is repeated, and the text after both.
#[derive(Drop)]
struct Run<'a> {
    byte: u8,
    times: usize,
    rest: &'a [u8],
}

// The run that a text begins with.
fn run_of(text: &[u8]) -> Option<Run<'_>>
    ensures { IfSome result (λ run. length run.rest.now < length text.now) }
{
    let [high, low, from @ ..] = text else {
        return None;
    };
    let byte = 16 * digit(*high)? + digit(*low)?;
    let (times, rest) = split_times(from)?;
    Some(Run { byte, times, rest })
}

// The bytes of the input that a line is, put into the buffer. There are none where the line is no input, or has more
// bytes than fit.
pub fn decode<'a>(line: &[u8], out: &'a mut [u8]) -> Option<&'a [u8]>
    ensures { IfSome result (λ bytes. length bytes.now ≤ length out.old) }
{
    let mut rest = match line {
        b"-" => &[],
        _ => line,
    };

    // The buffer is lent, so what is filled of it is counted beside it.
    let mut held = 0;
    while let Some((first, others)) = rest.split_first() {
        if *first == b' ' {
            rest = others;
            continue;
        }
        let run = run_of(rest)?;
        let end = run.times.checked_add(held)?;
        out.get_mut(held..end)?.fill(run.byte);
        held = end;
        rest = run.rest;
    }
    Some(&out[..held])
}
