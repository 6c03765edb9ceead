// The position that C lends, by its numbers in include/trace.h: the offset, the form, whether a record is open, and of
// the open record its start, its stated length and how many bytes have been accepted.
ghost use Rattle.std.specs.Prelude.{◌≡◌};
ghost use Rattle.trace_c.specs.Forms.{placed, open_numbers, left_as};
ghost use Rattle.trace_c.specs.Writing.{verdict_number};

use records::address::AddressForm;
use records::position::{Open, Position, Written};

// The position under a form. With no record open, the last three numbers do not count. No `From`: `Position` is of the
// crate records, which knows nothing of C's numbers, and no other crate may implement it.
#[tactic(auto, unfolding(crate::specs::Forms::placed))]
pub(crate) fn place_of(numbers: [u64; 6], form: AddressForm) -> Position
    ensures { result ≡ placed numbers form }
{
    let [at, _, pending, start, stated, filled] = numbers;
    if pending == 0 {
        return Position::at(at as usize, form);
    }
    Position {
        at: at as usize,
        form,
        pending: Some(Open {
            start: start as usize,
            stated: stated as usize,
            filled: filled as usize,
        }),
    }
}

// Whether a record is open, and the numbers of the open one; 0 where there is none.
fn open_numbers(pending: Option<Open>) -> [u64; 4]
    ensures { result ≡ open_numbers pending }
{
    match pending {
        Some(open) => [1, open.start as u64, open.stated as u64, open.filled as u64],
        None => [0, 0, 0, 0],
    }
}

// What a call says: its number, and the position that it hands back, put where C has lent it. After a refusal that is
// left as it was.
pub(crate) fn put_place(position: &mut [u64; 6], written: Written) -> u64
    ensures value { result ≡ verdict_number written.verdict }
    ensures position_after { position.new ≡ left_as position.old written }
{
    let place = written.position;
    match written.verdict {
        Ok(()) => {
            let [pending, start, stated, filled] = open_numbers(place.pending);
            *position = [place.at as u64, position[1], pending, start, stated, filled];
            0
        }
        Err(refusal) => refusal.number() as u64,
    }
}
