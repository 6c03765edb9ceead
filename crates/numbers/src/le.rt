// Numbers in bytes, least significant byte first, read and written at an offset of a slice. The caller makes sure that
// the bytes lie within the slice. The compiler makes one load or store of the bytes of a number. Each width has
// functions of its own: no trait of std has `from_le_bytes` or `to_le_bytes`, and one of ours, with four impls, would
// be longer. Slice and offset stay two arguments: from a struct of both, each contract would have to hand the same
// buffer back.
ghost use Rattle.std.specs.Prelude.{◌≡◌, ◌+◌, ◌≤◌, length};
ghost use Rattle.numbers.specs.Lists.{part, splice};
ghost use Rattle.numbers.specs.Numbers.{le_value, le_bytes};

// The number in one, two, four or eight bytes from offset at on. The bytes are named one by one, since std's chunk of a
// slice looks at its length at run time: three instructions more, measured.
pub fn get1(s: &[u8], at: usize) -> u8
    requires { at + 1 ≤ length s.now }
    ensures { result ≡ le_value (part s.now at 1) }
{
    s[at]
}

pub fn get2(s: &[u8], at: usize) -> u16
    requires { at + 2 ≤ length s.now }
    ensures { result ≡ le_value (part s.now at 2) }
{
    u16::from_le_bytes([s[at], s[at + 1]])
}

pub fn get4(s: &[u8], at: usize) -> u32
    requires { at + 4 ≤ length s.now }
    ensures { result ≡ le_value (part s.now at 4) }
{
    u32::from_le_bytes([s[at], s[at + 1], s[at + 2], s[at + 3]])
}

pub fn get8(s: &[u8], at: usize) -> u64
    requires { at + 8 ≤ length s.now }
    ensures { result ≡ le_value (part s.now at 8) }
{
    let bytes = &s[at..at + 8];
    u64::from_le_bytes([
        bytes[0], bytes[1], bytes[2], bytes[3], bytes[4], bytes[5], bytes[6], bytes[7],
    ])
}

// A number written into one, two, four or eight bytes from offset at on. No other byte is altered.
pub fn put1(out: &mut [u8], at: usize, value: u8)
    requires { at + 1 ≤ length out.old }
    ensures { out.new ≡ splice out.old at (le_bytes 1 value) }
{
    out[at] = value;
}

pub(crate) fn put2(out: &mut [u8], at: usize, value: u16)
    requires { at + 2 ≤ length out.old }
    ensures { out.new ≡ splice out.old at (le_bytes 2 value) }
{
    out[at..at + 2].copy_from_slice(&value.to_le_bytes());
}

pub fn put4(out: &mut [u8], at: usize, value: u32)
    requires { at + 4 ≤ length out.old }
    ensures { out.new ≡ splice out.old at (le_bytes 4 value) }
{
    out[at..at + 4].copy_from_slice(&value.to_le_bytes());
}

pub(crate) fn put8(out: &mut [u8], at: usize, value: u64)
    requires { at + 8 ≤ length out.old }
    ensures { out.new ≡ splice out.old at (le_bytes 8 value) }
{
    out[at..at + 8].copy_from_slice(&value.to_le_bytes());
}

// A number in any width, byte by byte, the least significant first.
fn put_each(out: &mut [u8], at: usize, width: usize, value: u64)
    requires { at + width ≤ length out.old }
    ensures { out.new ≡ splice out.old at (le_bytes width value) }
{
    let mut rest = value;
    for byte in &mut out[at..at + width] {
        *byte = (rest % 256) as u8;
        rest /= 256;
    }
}

// A number in `width` bytes: zero bytes above it, and what does not fit is left out. There is no largest width: a name
// of n bytes is filled up by the number 0 in 32 - n bytes.
pub fn put(out: &mut [u8], at: usize, width: usize, value: u64)
    requires { at + width ≤ length out.old }
    ensures { out.new ≡ splice out.old at (le_bytes width value) }
{
    match width {
        1 => put1(out, at, (value % 256) as u8),
        2 => put2(out, at, (value % 65536) as u16),
        4 => put4(out, at, (value % 4294967296) as u32),
        8 => put8(out, at, value),
        _ => put_each(out, at, width, value),
    }
}
