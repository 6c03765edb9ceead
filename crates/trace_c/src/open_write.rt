// A MemWrite in portions, by numbers and byte slices. Each function is C's own. They differ in the call that they make,
// and one that took it as a closure would need a contract as long as theirs.
ghost use Rattle.std.specs.Prelude.{◌≡◌, length};
ghost use Rattle.frames.specs.Demand.{Every};
ghost use Rattle.records.specs.Openings.{begun, bytes_begun, portioned, bytes_portioned, closed, bytes_closed, abandoned};
ghost use Rattle.records.specs.Traces.{Fits};
ghost use Rattle.trace_c.specs.Forms.{form_in};
ghost use Rattle.trace_c.specs.Openings.{called_number, called_place, called_bytes, begin_by};

use crate::form::{NOT_A_FORM, form_of};
use crate::place::{place_of, put_place};

pub fn aglimtaq_begin(out: &mut [u8], position: &mut [u64; 6], address: u64, stated: usize) -> u64
    ensures value { result ≡ called_number (λ q. begun (length out.old) q address stated) position.old (form_in position.old) }
    ensures position_after { position.new ≡ called_place (λ q. begun (length out.old) q address stated) position.old (form_in position.old) }
    ensures out_after { out.new ≡ called_bytes (λ q. bytes_begun out.old q address stated) out.old position.old (form_in position.old) }
    ensures every { Every Fits (begin_by address stated (form_in position.old)) }
{
    let numbers = *position;
    let Some(form) = form_of(numbers[1]) else {
        return NOT_A_FORM;
    };
    let written = place_of(numbers, form).begin(out, address, stated);
    put_place(position, written)
}

pub fn aglimtaq_portion(out: &mut [u8], position: &mut [u64; 6], bytes: &[u8]) -> u64
    ensures value { result ≡ called_number (λ q. portioned (length out.old) q (length bytes.now)) position.old (form_in position.old) }
    ensures position_after { position.new ≡ called_place (λ q. portioned (length out.old) q (length bytes.now)) position.old (form_in position.old) }
    ensures out_after { out.new ≡ called_bytes (λ q. bytes_portioned out.old q bytes.now) out.old position.old (form_in position.old) }
{
    let numbers = *position;
    let Some(form) = form_of(numbers[1]) else {
        return NOT_A_FORM;
    };
    let written = place_of(numbers, form).portion(out, bytes);
    put_place(position, written)
}

pub fn aglimtaq_close(out: &mut [u8], position: &mut [u64; 6]) -> u64
    ensures value { result ≡ called_number (closed (length out.old)) position.old (form_in position.old) }
    ensures position_after { position.new ≡ called_place (closed (length out.old)) position.old (form_in position.old) }
    ensures out_after { out.new ≡ called_bytes (bytes_closed out.old) out.old position.old (form_in position.old) }
{
    let numbers = *position;
    let Some(form) = form_of(numbers[1]) else {
        return NOT_A_FORM;
    };
    let written = place_of(numbers, form).close(out);
    put_place(position, written)
}

pub fn aglimtaq_abandon(position: &mut [u64; 6]) -> u64
    ensures value { result ≡ called_number abandoned position.old (form_in position.old) }
    ensures position_after { position.new ≡ called_place abandoned position.old (form_in position.old) }
{
    let numbers = *position;
    let Some(form) = form_of(numbers[1]) else {
        return NOT_A_FORM;
    };
    let written = place_of(numbers, form).abandon();
    put_place(position, written)
}
