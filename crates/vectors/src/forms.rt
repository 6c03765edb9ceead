// The four address forms of document 02's M-100, by their numbers in include/trace.h: lines print these, and the
// rules know nothing of the codec.
use records::address::AddressForm;

// Any other number is taken as 3, and none is asked for.
pub(crate) fn form_of(form: u64) -> AddressForm {
    trace_c::form::form_of(form).unwrap_or(AddressForm::Be32)
}
