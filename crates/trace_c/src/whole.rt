// Whole traces, by numbers and byte slices. The two walks are two functions of C: they differ in the walk that they
// call, and one that took it as a closure would need a contract as long as theirs.
ghost use Rattle.std.specs.Prelude.{◌≡◌};
ghost use Rattle.walk.specs.Counts.{count_of};
ghost use Rattle.walk.specs.Walks.{forth, back};
ghost use Rattle.trace_c.specs.Forms.{form_of};
ghost use Rattle.trace_c.specs.Reading.{counts_by, sizes_by, flat_end, end_by};

use crate::form::{NOT_A_FORM, form_of};
use records::position::Ending;
use walk::count::count;
use walk::walk::{End, walk, walk_back};

pub fn aglimtaq_count(bytes: &[u8], end: &mut u64) -> u64
    ensures value { result ≡ (count_of bytes.now).records }
    ensures end_after { end.new ≡ (count_of bytes.now).end }
{
    let counted = count(bytes);
    *end = counted.end as u64;
    counted.records as u64
}

// The numbers of struct aglimtaq_end, in order.
#[tactic(auto, unfolding(crate::specs::Reading::flat_end, walk::specs::Walks::wanted_in, walk::specs::Walks::refused_in))]
fn of_end(end: End) -> [u64; 3]
    ensures { result ≡ flat_end end }
{
    let position = end.position as u64;
    match end.ending {
        Ending::Refused(refusal) => [position, 0, refusal.number() as u64],
        Ending::Finished => [position, 0, 0],
        Ending::Unfinished(wanted) => [position, wanted as u64, 0],
    }
}

pub fn aglimtaq_walk(
    bytes: &[u8],
    form: u64,
    counts: &mut [u64; 8],
    sizes: &mut [u64; 64],
    end: &mut [u64; 3],
)
    ensures counts_after { counts.new ≡ counts_by (λ f. forth f bytes.now) counts.old (form_of form) }
    ensures sizes_after { sizes.new ≡ sizes_by bytes.now (λ f. forth f bytes.now) sizes.old (form_of form) }
    ensures end_after { end.new ≡ end_by (λ f. forth f bytes.now) (form_of form) }
{
    match form_of(form) {
        Some(form) => *end = of_end(walk(form, bytes, counts, sizes)),
        None => *end = [0, 0, NOT_A_FORM],
    }
}

pub fn aglimtaq_walk_back(
    bytes: &[u8],
    form: u64,
    counts: &mut [u64; 8],
    sizes: &mut [u64; 64],
    end: &mut [u64; 3],
)
    ensures counts_after { counts.new ≡ counts_by (λ f. back f bytes.now) counts.old (form_of form) }
    ensures sizes_after { sizes.new ≡ sizes_by bytes.now (λ f. back f bytes.now) sizes.old (form_of form) }
    ensures end_after { end.new ≡ end_by (λ f. back f bytes.now) (form_of form) }
{
    match form_of(form) {
        Some(form) => *end = of_end(walk_back(form, bytes, counts, sizes)),
        None => *end = [0, 0, NOT_A_FORM],
    }
}
