// What the fuel gauge, the distance left and the reserve lamp show on the way: the tank runs down, the lamp comes
// on, the motorcycle stands, the tank is filled, and it runs down again. The tank holds 14.0 litres. 100 kilometres
// take 5.0 litres, so each tenth of a litre does two of them. The speed is 88 km/h, and a tick is a millisecond.
use crate::trace::{Put, Trace};
use house::gauge::Gauge;

// The functions of the cluster that read the tank, and where the main loop calls them.
const GAUGE: u64 = 0x240;

const GAUGE_CALL: u64 = 0x326;

const RESERVE: u64 = 0x500;

const RESERVE_CALL: u64 = 0x32a;

const STANDBY: u64 = 0x540;

const STANDBY_CALL: u64 = 0x32e;

// The fuel in tenths of a litre, and the distance that is left with it.
fn level(trace: &mut Trace, tenths: u8, tick: u64) -> Put {
    let tenths = u16::from(tenths);
    let kilometres = 2 * tenths;
    trace.put_gauge(Gauge::Fuel { tenths, tick })?;
    trace.put_gauge(Gauge::DistanceLeft { kilometres, tick })
}

// The reserve lamp: 0 is off, 1 is on.
fn reserve_lamp(trace: &mut Trace, lamp: u8, tick: u64) -> Put {
    trace.put_gauge(Gauge::ReserveLamp { lamp, tick })
}

// A function is called: the tick, then its address and name.
fn called(trace: &mut Trace, tick: u64, address: u64, name: &[u8]) -> Put {
    trace.count(tick)?;
    trace.begin_call(address, name)
}

// At first 70 percent of the tank, and the lamp is off. A reading every 20 kilometres.
fn riding(trace: &mut Trace) -> Put {
    called(trace, 1000500, GAUGE, b"Tankanzeige")?;
    reserve_lamp(trace, 0, 1000500)?;
    level(trace, 98, 1000500)?;
    level(trace, 88, 1818500)?;
    level(trace, 78, 2636500)?;
    level(trace, 68, 3454500)?;
    level(trace, 58, 4272500)?;
    level(trace, 48, 5090500)?;
    level(trace, 38, 5908500)?;
    trace.end_call(GAUGE_CALL)
}

// At 3.0 litres the lamp comes on. The last reading is from where the motorcycle stops.
fn reserve(trace: &mut Trace) -> Put {
    called(trace, 6563000, RESERVE, b"Reserve")?;
    level(trace, 30, 6563000)?;
    reserve_lamp(trace, 1, 6563000)?;
    level(trace, 24, 7054000)?;
    level(trace, 21, 7299500)?;
    trace.end_call(RESERVE_CALL)
}

// Ten minutes later the tank is as it was. Four minutes after that it has been filled, and the lamp goes off.
fn standing(trace: &mut Trace) -> Put {
    called(trace, 7899500, STANDBY, b"Standby")?;
    level(trace, 21, 7899500)?;
    level(trace, 139, 8139500)?;
    reserve_lamp(trace, 0, 8139500)?;
    trace.end_call(STANDBY_CALL)
}

// On the way again, a reading every 10 kilometres.
fn riding_on(trace: &mut Trace) -> Put {
    called(trace, 8608500, GAUGE, b"Tankanzeige")?;
    level(trace, 134, 8608500)?;
    level(trace, 129, 9017500)?;
    trace.end_call(GAUGE_CALL)
}

pub(crate) fn curve(trace: &mut Trace) -> Put {
    riding(trace)?;
    reserve(trace)?;
    standing(trace)?;
    riding_on(trace)
}
