// The house family of Meta tag 200.
ghost use Rattle.std.specs.Prelude.{◌≡◌, length};
ghost use Rattle.house.specs.House.{house_next, house_previous};
ghost use Rattle.trace_c.specs.Forms.{form_in};
ghost use Rattle.trace_c.specs.Gauges.{house_reading_by, house_place_by, house_number, house_left, house_out};
ghost use Rattle.trace_c.specs.Gauges.{gauge_from, gauge_number, gauge_left, gauge_out};

#[unsafe(no_mangle)]
pub extern "C" fn aglimtaq_house_next(
    bytes: &[u8],
    position: &mut [u64; 6],
    reading: &mut [u64; 10],
)
    ensures position_after { position.new ≡ house_place_by (house_next bytes.now) position.old (form_in position.old) }
    ensures reading_after { reading.new ≡ house_reading_by (house_next bytes.now) position.old (form_in position.old) }
{
    trace_c::aglimtaq_house_next(bytes, position, reading);
}

#[unsafe(no_mangle)]
pub extern "C" fn aglimtaq_house_previous(
    bytes: &[u8],
    position: &mut [u64; 6],
    reading: &mut [u64; 10],
)
    ensures position_after { position.new ≡ house_place_by (house_previous bytes.now) position.old (form_in position.old) }
    ensures reading_after { reading.new ≡ house_reading_by (house_previous bytes.now) position.old (form_in position.old) }
{
    trace_c::aglimtaq_house_previous(bytes, position, reading);
}

#[unsafe(no_mangle)]
pub extern "C" fn aglimtaq_house_write(out: &mut [u8], position: &mut [u64; 6], bytes: &[u8]) -> u64
    ensures value { result ≡ house_number (length out.old) position.old bytes.now (form_in position.old) }
    ensures position_after { position.new ≡ house_left (length out.old) position.old bytes.now (form_in position.old) }
    ensures out_after { out.new ≡ house_out out.old position.old bytes.now (form_in position.old) }
{
    trace_c::aglimtaq_house_write(out, position, bytes)
}

#[unsafe(no_mangle)]
pub extern "C" fn aglimtaq_house_write_gauge(
    out: &mut [u8],
    position: &mut [u64; 6],
    gauge: &[u64; 4],
) -> u64
    ensures value { result ≡ gauge_number (length out.old) position.old (gauge_from gauge.now) (form_in position.old) }
    ensures position_after { position.new ≡ gauge_left (length out.old) position.old (gauge_from gauge.now) (form_in position.old) }
    ensures out_after { out.new ≡ gauge_out out.old position.old (gauge_from gauge.now) (form_in position.old) }
{
    trace_c::aglimtaq_house_write_gauge(out, position, gauge)
}
