// Numbers at every width from 0 to 8: what is written between two bytes that are not altered, and what is
// read back.
ghost use Rattle.std.specs.Prelude.{◌≤◌};

use console::print;
use numbers::le;
use std::io::Stdout;

// Bytes as a number, read plainly, the most significant first. Not by `from_le_bytes`, so that nothing is shared with
// the codec.
fn plain(s: &[u8]) -> u64 {
    s.iter().rev().fold(0, |value, b| {
        value % 0x0100000000000000 * 256 + u64::from(*b)
    })
}

// The number at place 1: by the codec's function for the width where there is one, else read plainly.
fn read(buffer: &[u8; 10], width: usize) -> u64
    requires { width ≤ 8 }
{
    match width {
        1 => u64::from(le::get1(buffer, 1)),
        2 => u64::from(le::get2(buffer, 1)),
        4 => u64::from(le::get4(buffer, 1)),
        8 => le::get8(buffer, 1),
        _ => plain(&buffer[1..1 + width]),
    }
}

fn line(stdout: Stdout, width: usize, value: u64)
    requires { width ≤ 8 }
{
    let mut buffer = [0xaa; 10];
    le::put(&mut buffer, 1, width, value);
    let _ = print!(stdout; "{width} {value}: ");
    print::bytes(stdout, &buffer);
    print::count(stdout, read(&buffer, width), b"\n");
}

pub(crate) fn list(stdout: Stdout) {
    let mut largest: u64 = 0;
    for width in 0..=8 {
        line(stdout, width, 0);
        line(stdout, width, largest);
        line(stdout, width, 0x0807060504030201);
        largest = largest % 0x0100000000000000 * 256 + 255;
    }
}
