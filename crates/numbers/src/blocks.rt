// Which bytes are text, in blocks of sixteen: each byte is held against the three before it, which say whether it leads
// a character or goes on with one. No jump of a block depends on its bytes, so that the compiler makes vectors of it.
ghost use Rattle.std.specs.Prelude.{◌≡◌, ◌&&◌, ◌||◌, ◌+◌, ◌≤◌, [], length, leb};
ghost use Rattle.numbers.specs.Text.{◌to◌, within, utf8};
ghost use Rattle.numbers.specs.Inner.{fits_in, fits_after, fits_at, all_fit};

use crate::copy::copy;
use crate::lead::{Lead, lead_of};

// Whether x lies in a range, whose ends are in it. Written out: `contains` would first have to make a range of the two.
fn within(low: u8, high: u8, x: u8) -> bool
    ensures { result ≡ within (low to high) x }
{
    low <= x && x <= high
}

// Whether x may come where the byte before it asks for nothing, and those before that are b and c.
fn fits_further(c: u8, b: u8, x: u8) -> bool
    ensures { result ≡ fits_in [] (leb 0xe0 b || leb 0xf0 c) x }
{
    // The third byte of a character, or the fourth, is a tail.
    if 0xe0 <= b || 0xf0 <= c {
        return within(0x80, 0xbf, x);
    }
    lead_of(x).is_some()
}

// Whether x may come after the bytes c, b and a, in this order. They are four and no array: at the ends of a text some
// are bytes of it and some are zeros.
fn fits(c: u8, b: u8, a: u8, x: u8) -> bool
    ensures { result ≡ fits_after c b a x }
{
    match lead_of(a) {
        Some(Lead::Second { low, high }) => within(low, high, x),
        Some(Lead::Alone) | None => fits_further(c, b, x),
    }
}

// The first three bytes, with zero bytes before them, and the end: a zero byte fits there where no more are awaited.
fn ends(s: &[u8]) -> bool
    requires { 3 ≤ length s.now }
    ensures { result ≡ all_fit s.now 0 3 && fits_at s.now (length s.now) }
{
    let n = s.len();
    fits(0, 0, 0, s[0])
        & fits(0, 0, s[0], s[1])
        & fits(0, s[0], s[1], s[2])
        & fits(s[n - 3], s[n - 2], s[n - 1], 0)
}

// The sixteen bytes from offset at on. By offset, as `all_fit` counts: `windows(4)` would begin three bytes before at.
fn block(s: &[u8], at: usize) -> bool
    requires { (3 ≤ at) × (at + 16 ≤ length s.now) }
    ensures { result ≡ all_fit s.now at 16 }
{
    let mut all = true;
    for i in at..at + 16 {
        all &= fits(s[i - 3], s[i - 2], s[i - 1], s[i]);
    }
    all
}

// Whether 19 bytes or more are text: a block needs three bytes before it. The last block may overlap the one before it.
fn long(s: &[u8]) -> bool
    requires { 19 ≤ length s.now }
    ensures { result ≡ utf8 s.now }
{
    if !ends(s) {
        return false;
    }
    let last = s.len() - 16;
    // A loop: a closure for `all` would need a clause of its own, that each block lies in s.
    for at in (3..last).step_by(16) {
        if !block(s, at) {
            return false;
        }
    }
    block(s, last)
}

// Whether all of s is text. Fewer bytes than 19 are filled up with zero bytes, which are characters of their own.
pub(crate) fn by_blocks(s: &[u8]) -> bool
    ensures { result ≡ utf8 s.now }
{
    if s.len() < 19 {
        let mut filled = [0; 19];
        copy(&mut filled, 0, s);
        return long(&filled);
    }
    long(s)
}
