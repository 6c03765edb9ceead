// Writing.
ghost use Rattle.std.specs.Prelude.{◌≡◌, length};
ghost use Rattle.frames.specs.Demand.{Every};
ghost use Rattle.records.specs.Traces.{Fits};
ghost use Rattle.trace_c.specs.Forms.{form_in};
ghost use Rattle.trace_c.specs.Writing.{given, call_by, written_number, written_place, written_bytes};

#[unsafe(no_mangle)]
pub extern "C" fn aglimtaq_write(
    out: &mut [u8],
    position: &mut [u64; 6],
    record: &[u64; 4],
    bytes: &[u8],
) -> u64
    ensures value { result ≡ written_number (length out.old) position.old bytes.now (given «record».now) (form_in position.old) }
    ensures position_after { position.new ≡ written_place (length out.old) position.old bytes.now (given «record».now) (form_in position.old) }
    ensures out_after { out.new ≡ written_bytes out.old position.old bytes.now (given «record».now) (form_in position.old) }
    ensures every { Every Fits (call_by bytes.now (given «record».now) (form_in position.old)) }
{
    trace_c::aglimtaq_write(out, position, record, bytes)
}
