// Text, by a byte slice.
ghost use Rattle.std.specs.Prelude.{◌≡◌, cond};
ghost use Rattle.numbers.specs.Text.{utf8};

use numbers::text::is_utf8;

pub fn aglimtaq_is_utf8(bytes: &[u8]) -> u64
    ensures { result ≡ cond (utf8 bytes.now) 1 0 }
{
    u64::from(is_utf8(bytes))
}
