// Text.
ghost use Rattle.std.specs.Prelude.{◌≡◌, cond};
ghost use Rattle.numbers.specs.Text.{utf8};

#[unsafe(no_mangle)]
pub extern "C" fn aglimtaq_is_utf8(bytes: &[u8]) -> u64
    ensures { result ≡ cond (utf8 bytes.now) 1 0 }
{
    trace_c::aglimtaq_is_utf8(bytes)
}
