// Numbers that look random: a linear congruential generator modulo 2^32, of which the upper 16 bits are
// taken.
ghost use Rattle.std.specs.Prelude.{◌<◌};

#[derive(Drop)]
pub(crate) struct Random {
    state: u32,
}

impl Random {
    pub(crate) fn new() -> Random {
        Random { state: 1 }
    }

    // A number below n, which is at most 65,536.
    pub(crate) fn draw(&mut self, n: u64) -> u64
        requires { 0 < n }
        ensures { result < n }
    {
        self.state = self.state.wrapping_mul(1664525).wrapping_add(1013904223);
        u64::from(self.state / 65536) % n
    }

    // A byte below n, which is at most 256.
    pub(crate) fn byte(&mut self, n: u64) -> u8
        requires { 0 < n }
    {
        (self.draw(n) % 256) as u8
    }

    // A number of `width` bytes, the most significant one drawn first.
    pub(crate) fn number(&mut self, width: usize) -> u64 {
        let mut n = 0;
        for _ in 0..width {
            n = n % 0x0100000000000000 * 256 + self.draw(256);
        }
        n
    }
}
