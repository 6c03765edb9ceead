// All strings of a few bytes.
ghost use Rattle.std.specs.Prelude.{◌≤◌};

// The strings of `len` bytes, of which there are `count`: the low bytes of each number below `count`, the least
// significant first.
#[derive(Clone, Copy)]
pub(crate) struct AllStrings {
    pub(crate) len: usize,
    pub(crate) count: u32,
    ghost short: { len ≤ 3 },
}

impl AllStrings {
    pub(crate) fn of(len: usize) -> AllStrings
        requires { len ≤ 3 }
    {
        AllStrings {
            len,
            count: 1 << (8 * len),
        }
    }
}
