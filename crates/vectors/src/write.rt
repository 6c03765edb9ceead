// A call of the codec's writer, and its answer.
use crate::calls::Call;
use crate::forms::form_of;
use records::position::Position;
use trace_c::given::new_of;

// The number of the refusal, or 256 where the call has no record; and the position. A number, since the book's rules
// give numbers.
#[derive(Clone, Copy)]
pub(crate) struct Said {
    pub(crate) verdict: Result<(), u64>,
    pub(crate) at: usize,
}

pub(crate) fn write(form: u64, out: &mut [u8], at: usize, call: Call) -> Said {
    let Some(new) = new_of(call.t, call.a, call.b, call.c) else {
        return Said {
            verdict: Err(256),
            at,
        };
    };
    let written = Position::at(at, form_of(form)).write(out, new, call.slice);
    Said {
        verdict: written
            .verdict
            .map_err(|refusal| u64::from(refusal.number())),
        at: written.position.at,
    }
}
