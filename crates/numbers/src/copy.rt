// Bytes copied to an offset of a buffer. Most contents are short, so up to sixteen bytes are copied without a loop.
// Buffer and offset stay two arguments: `le` says why.
ghost use Rattle.std.specs.Prelude.{◌≡◌, ◌+◌, ◌≤◌, length};
ghost use Rattle.numbers.specs.Lists.{splice};

use crate::le::{get4, get8, put4, put8};

// One to three bytes: the first, the middle one and the last, which may be the same.
fn copy_few(out: &mut [u8], at: usize, s: &[u8])
    requires in_bounds { (1 ≤ length s.now) × (length s.now ≤ 3) }
    requires s_in_bounds { at + length s.now ≤ length out.old }
    ensures { out.new ≡ splice out.old at s.now }
{
    let middle = s.len() / 2;
    let last = s.len() - 1;
    out[at] = s[0];
    out[at + middle] = s[middle];
    out[at + last] = s[last];
}

// Four to eight bytes: the first four and the last four, which may overlap. Both are moved as numbers, here and in
// `copy_ends8`: with `copy_from_slice` the program asks whether they overlap the buffer, a fifth more instructions,
// measured. The two are not one function, since `le` has none that reads a number of either width.
fn copy_ends4(out: &mut [u8], at: usize, s: &[u8])
    requires in_bounds { (4 ≤ length s.now) × (length s.now ≤ 8) }
    requires s_in_bounds { at + length s.now ≤ length out.old }
    ensures { out.new ≡ splice out.old at s.now }
{
    let last = s.len() - 4;
    put4(out, at, get4(s, 0));
    put4(out, at + last, get4(s, last));
}

// Eight to sixteen bytes: the first eight and the last eight, which may overlap.
fn copy_ends8(out: &mut [u8], at: usize, s: &[u8])
    requires in_bounds { (8 ≤ length s.now) × (length s.now ≤ 16) }
    requires s_in_bounds { at + length s.now ≤ length out.old }
    ensures { out.new ≡ splice out.old at s.now }
{
    let last = s.len() - 8;
    put8(out, at, get8(s, 0));
    put8(out, at + last, get8(s, last));
}

// All of s, copied into out from offset at on. A `match` on the length takes a tenth more instructions where four to
// sixteen bytes are copied, measured.
pub fn copy(out: &mut [u8], at: usize, s: &[u8])
    requires { at + length s.now ≤ length out.old }
    ensures { out.new ≡ splice out.old at s.now }
{
    if 17 <= s.len() {
        out[at..at + s.len()].copy_from_slice(s);
    } else if 8 <= s.len() {
        copy_ends8(out, at, s);
    } else if 4 <= s.len() {
        copy_ends4(out, at, s);
    } else if 1 <= s.len() {
        copy_few(out, at, s);
    }
}
