// Reading.
ghost use Rattle.std.specs.Prelude.{◌≡◌};
ghost use Rattle.frames.specs.Frames.{needed, value_of};
ghost use Rattle.records.specs.Reading.{next_name};
ghost use Rattle.records.specs.Positions.{visible, read_next, read_previous};
ghost use Rattle.trace_c.specs.Forms.{form_of, form_in};
ghost use Rattle.trace_c.specs.Reading.{place_by, reading_by, parsed_by, flat_content, content_number, flat_name, name_number};

#[unsafe(no_mangle)]
pub extern "C" fn aglimtaq_read_next(bytes: &[u8], position: &mut [u64; 6], reading: &mut [u64; 10])
    ensures position_after { position.new ≡ place_by (λ q. read_next (visible bytes.now q.pending) q) position.old (form_in position.old) }
    ensures reading_after { reading.new ≡ reading_by (λ q. read_next (visible bytes.now q.pending) q) position.old (form_in position.old) }
{
    trace_c::aglimtaq_read_next(bytes, position, reading);
}

#[unsafe(no_mangle)]
pub extern "C" fn aglimtaq_read_previous(
    bytes: &[u8],
    position: &mut [u64; 6],
    reading: &mut [u64; 10],
)
    ensures position_after { position.new ≡ place_by (λ q. read_previous (visible bytes.now q.pending) q) position.old (form_in position.old) }
    ensures reading_after { reading.new ≡ reading_by (λ q. read_previous (visible bytes.now q.pending) q) position.old (form_in position.old) }
{
    trace_c::aglimtaq_read_previous(bytes, position, reading);
}

#[unsafe(no_mangle)]
pub extern "C" fn aglimtaq_parse(bytes: &[u8], base: usize, form: u64, reading: &mut [u64; 10])
    ensures { reading.new ≡ parsed_by base bytes.now (form_of form) }
{
    trace_c::aglimtaq_parse(bytes, base, form, reading);
}

#[unsafe(no_mangle)]
pub extern "C" fn aglimtaq_one_record(bytes: &[u8]) -> u64
    ensures { result ≡ needed bytes.now }
{
    trace_c::aglimtaq_one_record(bytes)
}

#[unsafe(no_mangle)]
pub extern "C" fn aglimtaq_value(bytes: &[u8], part: &mut [u64; 2]) -> u64
    ensures value { result ≡ content_number (value_of bytes.now) }
    ensures part_after { part.new ≡ flat_content (value_of bytes.now) }
{
    trace_c::aglimtaq_value(bytes, part)
}

#[unsafe(no_mangle)]
pub extern "C" fn aglimtaq_next_name(list: &[u8], at: usize, entry: &mut [u64; 4]) -> u64
    ensures value { result ≡ name_number (next_name list.now (record { at = at })) }
    ensures after { entry.new ≡ flat_name (next_name list.now (record { at = at })) }
{
    trace_c::aglimtaq_next_name(list, at, entry)
}
