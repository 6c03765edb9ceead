// A list of write calls.
ghost use Rattle.std.specs.Prelude.{◌≡◌};
ghost use Rattle.frames.specs.Demand.{Every};
ghost use Rattle.records.specs.Traces.{Fits};
ghost use Rattle.trace_c.specs.Forms.{form_in};
ghost use Rattle.trace_c.specs.Calls.{all_number, all_place, all_end, all_bytes, all_made};

#[unsafe(no_mangle)]
pub extern "C" fn aglimtaq_write_all(
    out: &mut [u8],
    position: &mut [u64; 6],
    calls: &[[u64; 5]],
    bytes: &[u8],
    end: &mut [u64; 2],
) -> u64
    ensures value { result ≡ all_number out.old position.old calls.now bytes.now (form_in position.old) }
    ensures position_after { position.new ≡ all_place out.old position.old calls.now bytes.now (form_in position.old) }
    ensures end_after { end.new ≡ all_end out.old position.old calls.now bytes.now end.old (form_in position.old) }
    ensures out_after { out.new ≡ all_bytes out.old position.old calls.now bytes.now (form_in position.old) }
    ensures every { Every Fits (all_made out.old position.old calls.now bytes.now (form_in position.old)) }
{
    trace_c::aglimtaq_write_all(out, position, calls, bytes, end)
}
