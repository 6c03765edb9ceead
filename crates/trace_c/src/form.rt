// The address form that C hands over, by its number in include/trace.h.
ghost use Rattle.std.specs.Prelude.{◌≡◌};
ghost use Rattle.trace_c.specs.Forms.{form_of, form_number};

use records::address::AddressForm;

// The number that C is given for a form that is none of the four: include/trace.h.
pub(crate) const NOT_A_FORM: u64 = 257;

// One of the four forms, or none of them. No `TryFrom`, nor `From` below: the form is of the crate records, which knows
// nothing of C's numbers, and no other crate may implement them.
#[tactic(auto, unfolding(crate::specs::Forms::form_of, crate::specs::Forms::form_number))]
pub fn form_of(n: u64) -> Option<AddressForm>
    ensures { result ≡ form_of n }
{
    match n {
        0 => Some(AddressForm::Le64),
        1 => Some(AddressForm::Be64),
        2 => Some(AddressForm::Le32),
        3 => Some(AddressForm::Be32),
        _ => None,
    }
}

#[tactic(auto, unfolding(crate::specs::Forms::form_number))]
pub(crate) fn form_number(form: AddressForm) -> u64
    ensures { result ≡ form_number form }
{
    match form {
        AddressForm::Le64 => 0,
        AddressForm::Be64 => 1,
        AddressForm::Le32 => 2,
        AddressForm::Be32 => 3,
    }
}
