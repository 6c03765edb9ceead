// Whole traces.
ghost use Rattle.std.specs.Prelude.{◌≡◌};
ghost use Rattle.walk.specs.Counts.{count_of};
ghost use Rattle.walk.specs.Walks.{forth, back};
ghost use Rattle.trace_c.specs.Forms.{form_of};
ghost use Rattle.trace_c.specs.Reading.{counts_by, sizes_by, end_by};

#[unsafe(no_mangle)]
pub extern "C" fn aglimtaq_count(bytes: &[u8], end: &mut u64) -> u64
    ensures value { result ≡ (count_of bytes.now).records }
    ensures end_after { end.new ≡ (count_of bytes.now).end }
{
    trace_c::aglimtaq_count(bytes, end)
}

#[unsafe(no_mangle)]
pub extern "C" fn aglimtaq_walk(
    bytes: &[u8],
    form: u64,
    counts: &mut [u64; 8],
    sizes: &mut [u64; 64],
    end: &mut [u64; 3],
)
    ensures counts_after { counts.new ≡ counts_by (λ f. forth f bytes.now) counts.old (form_of form) }
    ensures sizes_after { sizes.new ≡ sizes_by bytes.now (λ f. forth f bytes.now) sizes.old (form_of form) }
    ensures end_after { end.new ≡ end_by (λ f. forth f bytes.now) (form_of form) }
{
    trace_c::aglimtaq_walk(bytes, form, counts, sizes, end);
}

#[unsafe(no_mangle)]
pub extern "C" fn aglimtaq_walk_back(
    bytes: &[u8],
    form: u64,
    counts: &mut [u64; 8],
    sizes: &mut [u64; 64],
    end: &mut [u64; 3],
)
    ensures counts_after { counts.new ≡ counts_by (λ f. back f bytes.now) counts.old (form_of form) }
    ensures sizes_after { sizes.new ≡ sizes_by bytes.now (λ f. back f bytes.now) sizes.old (form_of form) }
    ensures end_after { end.new ≡ end_by (λ f. back f bytes.now) (form_of form) }
{
    trace_c::aglimtaq_walk_back(bytes, form, counts, sizes, end);
}
