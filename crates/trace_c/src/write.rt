// Writing, by numbers and byte slices.
ghost use Rattle.std.specs.Prelude.{◌≡◌, length};
ghost use Rattle.frames.specs.Demand.{Every};
ghost use Rattle.records.specs.Traces.{Fits};
ghost use Rattle.trace_c.specs.Forms.{form_in};
ghost use Rattle.trace_c.specs.Writing.{given, call_by, verdict_number, written_number, written_place, written_bytes};

use crate::direct::write_direct;
use crate::form::{NOT_A_FORM, form_of};
use crate::given::new_of;
use crate::place::place_of;
use frames::refusal::Refusal;

// The number that C is given where no record was given: include/trace.h.
pub(crate) const NO_RECORD: u64 = 256;

// 0, or the refusal's number, for C. No `From`: `Result` and u64 are both of std, so no crate here may implement it.
#[tactic(auto, unfolding(crate::specs::Writing::verdict_number))]
pub(crate) fn number_of(verdict: Result<(), Refusal>) -> u64
    ensures { result ≡ verdict_number verdict }
{
    match verdict {
        Ok(()) => 0,
        Err(refusal) => refusal.number() as u64,
    }
}

pub fn aglimtaq_write(
    out: &mut [u8],
    position: &mut [u64; 6],
    record: &[u64; 4],
    bytes: &[u8],
) -> u64
    ensures value { result ≡ written_number (length out.old) position.old bytes.now (given «record».now) (form_in position.old) }
    ensures position_after { position.new ≡ written_place (length out.old) position.old bytes.now (given «record».now) (form_in position.old) }
    ensures out_after { out.new ≡ written_bytes out.old position.old bytes.now (given «record».now) (form_in position.old) }
    ensures every { Every Fits (call_by bytes.now (given «record».now) (form_in position.old)) }
{
    let Some(form) = form_of(position[1]) else {
        return NOT_A_FORM;
    };
    let at = position[0] as usize;
    let direct = write_direct(out, at, form, position[2], record[0], record[1], bytes);
    if let Some(done) = direct {
        return match done {
            Ok(end) => {
                position[0] = end as u64;
                0
            }
            Err(refusal) => refusal.number() as u64,
        };
    }
    let Some(new) = new_of(record[0], record[1], record[2], record[3]) else {
        return NO_RECORD;
    };
    let written = place_of(*position, form).write(out, new, bytes);
    let place = written.position;
    position[0] = place.at as u64;
    number_of(written.verdict)
}
