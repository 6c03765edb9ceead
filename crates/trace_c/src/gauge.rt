// The house family of Meta tag 200, read and written by numbers and byte slices: over the plain calls, so that these
// stay as fast as they are. With a second caller the functions beneath would no longer be inlined. Forwards and
// backwards are two functions of C, with two lines each.
ghost use Rattle.std.specs.Prelude.{◌≡◌, length};
ghost use Rattle.house.specs.House.{house_next, house_previous};
ghost use Rattle.trace_c.specs.Forms.{form_of, form_in};
ghost use Rattle.trace_c.specs.Gauges.{gauge_fields, house_reading_by, house_place_by, house_number, house_left, house_out};
ghost use Rattle.trace_c.specs.Gauges.{gauge_given, gauge_from, no_gauge, gauge_number, gauge_left, gauge_out};
ghost use Rattle.trace_c.specs.InnerGauges.{told_of, refusal_by};

use crate::fields::{Fields, numbers, shown};
use crate::form::{NOT_A_FORM, form_of};
use crate::place::place_of;
use crate::read::{aglimtaq_read_next, aglimtaq_read_previous};
use crate::types::{DISTANCE_LEFT, FUEL, RESERVE_LAMP, UNKNOWN_META};
use crate::write::{NO_RECORD, aglimtaq_write};
use frames::read::Part;
use frames::refusal::Refusal;
use house::gauge::{Gauge, gauge_of, put_gauge};
use house::read::TAG;
use house::write::refused;
use records::bytes::bytes as lent_bytes;

// The tag of the family, as C has numbers.
const HOUSE_TAG: u64 = TAG as u64;

// A house reading: its type's number, its value and its tick.
#[tactic(auto, unfolding(crate::specs::Gauges::gauge_fields))]
fn of_gauge(gauge: Gauge) -> Fields
    ensures { result ≡ gauge_fields gauge }
{
    match gauge {
        Gauge::Fuel { tenths, tick } => numbers(FUEL, tenths as u64, tick, 0),
        Gauge::DistanceLeft { kilometres, tick } => numbers(
            DISTANCE_LEFT,
            kilometres as u64,
            tick,
            0,
        ),
        Gauge::ReserveLamp { lamp, tick } => numbers(RESERVE_LAMP, lamp as u64, tick, 0),
    }
}

// Of a reading that shows a Meta of tag 200, its fields or the refusal in place of the unknown Meta.
fn tell(bytes: &[u8], reading: &mut [u64; 10])
    ensures { reading.new ≡ told_of bytes.now reading.old }
{
    if reading[4] != UNKNOWN_META {
        return;
    }
    if reading[5] != HOUSE_TAG {
        return;
    }
    let start = reading[2];
    let end = reading[3];
    let contents = Part {
        start: reading[8] as usize,
        end: reading[9] as usize,
    };
    match gauge_of(lent_bytes(bytes, contents)) {
        Ok(gauge) => {
            let part = Part {
                start: start as usize,
                end: end as usize,
            };
            *reading = shown(part, of_gauge(gauge));
        }
        Err(refusal) => *reading = [1, refusal.number() as u64, start, end, 0, 0, 0, 0, 0, 0],
    }
}

pub fn aglimtaq_house_next(bytes: &[u8], position: &mut [u64; 6], reading: &mut [u64; 10])
    ensures position_after { position.new ≡ house_place_by (house_next bytes.now) position.old (form_in position.old) }
    ensures reading_after { reading.new ≡ house_reading_by (house_next bytes.now) position.old (form_in position.old) }
{
    aglimtaq_read_next(bytes, position, reading);
    tell(bytes, reading);
}

pub fn aglimtaq_house_previous(bytes: &[u8], position: &mut [u64; 6], reading: &mut [u64; 10])
    ensures position_after { position.new ≡ house_place_by (house_previous bytes.now) position.old (form_in position.old) }
    ensures reading_after { reading.new ≡ house_reading_by (house_previous bytes.now) position.old (form_in position.old) }
{
    aglimtaq_read_previous(bytes, position, reading);
    tell(bytes, reading);
}

// What a house write of bytes that are no house reading returns.
fn refusal_by(numbers: [u64; 6], lent: usize, refusal: Refusal) -> u64
    ensures { result ≡ refusal_by lent numbers refusal (form_in numbers) }
{
    match form_of(numbers[1]) {
        Some(form) => {
            let call = refused(place_of(numbers, form), lent, refusal.number());
            call.number as u64
        }
        None => NOT_A_FORM,
    }
}

pub fn aglimtaq_house_write(out: &mut [u8], position: &mut [u64; 6], bytes: &[u8]) -> u64
    ensures value { result ≡ house_number (length out.old) position.old bytes.now (form_in position.old) }
    ensures position_after { position.new ≡ house_left (length out.old) position.old bytes.now (form_in position.old) }
    ensures out_after { out.new ≡ house_out out.old position.old bytes.now (form_in position.old) }
{
    match gauge_of(bytes) {
        Ok(_) => {
            let record = [UNKNOWN_META, HOUSE_TAG, 0, 0];
            aglimtaq_write(out, position, &record, bytes)
        }
        Err(refusal) => refusal_by(*position, out.len(), refusal),
    }
}

// The house reading, or none where its type is none of the three or its value does not fit. No `TryFrom`: `Gauge` is of
// the crate house, which knows nothing of C's numbers, and no other crate may implement it.
#[tactic(auto, unfolding(crate::specs::Gauges::gauge_fits, crate::specs::Gauges::gauge_built, crate::specs::Gauges::gauge_given))]
pub fn gauge_given(t: u64, value: u64, tick: u64) -> Option<Gauge>
    ensures { result ≡ gauge_given t value tick }
{
    match t {
        FUEL => Some(Gauge::Fuel {
            tenths: u16::try_from(value).ok()?,
            tick,
        }),
        DISTANCE_LEFT => Some(Gauge::DistanceLeft {
            kilometres: u16::try_from(value).ok()?,
            tick,
        }),
        RESERVE_LAMP => Some(Gauge::ReserveLamp {
            lamp: u8::try_from(value).ok()?,
            tick,
        }),
        _ => None,
    }
}

// What is returned where no house reading was given, by the number of the form.
#[tactic(auto, unfolding(crate::specs::Gauges::no_gauge))]
fn no_gauge(form: u64) -> u64
    ensures { result ≡ no_gauge (form_of form) }
{
    match form_of(form) {
        Some(_) => NO_RECORD,
        None => NOT_A_FORM,
    }
}

pub fn aglimtaq_house_write_gauge(out: &mut [u8], position: &mut [u64; 6], gauge: &[u64; 4]) -> u64
    ensures value { result ≡ gauge_number (length out.old) position.old (gauge_from gauge.now) (form_in position.old) }
    ensures position_after { position.new ≡ gauge_left (length out.old) position.old (gauge_from gauge.now) (form_in position.old) }
    ensures out_after { out.new ≡ gauge_out out.old position.old (gauge_from gauge.now) (form_in position.old) }
{
    match gauge_given(gauge[0], gauge[1], gauge[2]) {
        Some(given) => {
            // No function allocates, so the buffer is fixed, and n says how much of it is put.
            let mut bytes = [0u8; 11];
            let n = put_gauge(&mut bytes, given);
            aglimtaq_house_write(out, position, &bytes[..n])
        }
        None => no_gauge(position[1]),
    }
}
