// Slices of 0 to 34 bytes, copied between two bytes that are not altered.
ghost use Rattle.std.specs.Prelude.{◌≤◌, length};

use console::print;
use numbers::copy::copy;
use std::io::Stdout;

fn line(stdout: Stdout, s: &[u8])
    requires { length s.now ≤ 34 }
{
    let mut buffer = [0x2e; 36];
    copy(&mut buffer, 1, s);
    print::text(stdout, &buffer);
    print::text(stdout, b"\n");
}

// Every prefix of the letters and eight digits.
pub(crate) fn list(stdout: Stdout) {
    let s = b"ABCDEFGHIJKLMNOPQRSTUVWXYZ01234567";
    for n in 0..=34 {
        line(stdout, &s[..n]);
    }
}
