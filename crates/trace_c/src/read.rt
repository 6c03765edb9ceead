// Reading, by numbers and byte slices. Forwards and backwards are two functions of C, and a shared one that took the
// call as a closure would need a contract as long as theirs.
ghost use Rattle.std.specs.Prelude.{◌≡◌};
ghost use Rattle.frames.specs.Frames.{needed, value_of};
ghost use Rattle.records.specs.Reading.{next_name};
ghost use Rattle.records.specs.Positions.{visible, read_next, read_previous};
ghost use Rattle.trace_c.specs.Forms.{form_of, form_in};
ghost use Rattle.trace_c.specs.Reading.{place_by, reading_by, parsed_by, flat_content, content_number, flat_name, name_number};

use crate::fields::{of_answer, of_parsed};
use crate::form::{NOT_A_FORM, form_of};
use crate::place::place_of;
use frames::read::{one_record, value};
use records::record::Record;
use records::registers::Names;

// A reading refused for its form.
const NO_FORM: [u64; 10] = [2, NOT_A_FORM, 0, 0, 0, 0, 0, 0, 0, 0];

pub fn aglimtaq_read_next(bytes: &[u8], position: &mut [u64; 6], reading: &mut [u64; 10])
    ensures position_after { position.new ≡ place_by (λ q. read_next (visible bytes.now q.pending) q) position.old (form_in position.old) }
    ensures reading_after { reading.new ≡ reading_by (λ q. read_next (visible bytes.now q.pending) q) position.old (form_in position.old) }
{
    let numbers = *position;
    let Some(form) = form_of(numbers[1]) else {
        *reading = NO_FORM;
        return;
    };
    let next = place_of(numbers, form).read_next(bytes);
    let place = next.position;
    position[0] = place.at as u64;
    *reading = of_answer(next.answer);
}

pub fn aglimtaq_read_previous(bytes: &[u8], position: &mut [u64; 6], reading: &mut [u64; 10])
    ensures position_after { position.new ≡ place_by (λ q. read_previous (visible bytes.now q.pending) q) position.old (form_in position.old) }
    ensures reading_after { reading.new ≡ reading_by (λ q. read_previous (visible bytes.now q.pending) q) position.old (form_in position.old) }
{
    let numbers = *position;
    let Some(form) = form_of(numbers[1]) else {
        *reading = NO_FORM;
        return;
    };
    let previous = place_of(numbers, form).read_previous(bytes);
    let start = previous.position;
    position[0] = start.at as u64;
    *reading = of_answer(previous.answer);
}

#[tactic(auto, unfolding(crate::specs::Reading::parsed_by))]
pub fn aglimtaq_parse(bytes: &[u8], base: usize, form: u64, reading: &mut [u64; 10])
    ensures { reading.new ≡ parsed_by base bytes.now (form_of form) }
{
    match form_of(form) {
        Some(form) => *reading = of_parsed(Record::parse(form, base, bytes)),
        None => *reading = NO_FORM,
    }
}

pub fn aglimtaq_one_record(bytes: &[u8]) -> u64
    ensures { result ≡ needed bytes.now }
{
    match one_record(bytes) {
        Ok(n) => n as u64,
        Err(n) => n as u64,
    }
}

#[tactic(auto, unfolding(crate::specs::Reading::flat_content, crate::specs::Reading::content_number))]
pub fn aglimtaq_value(bytes: &[u8], part: &mut [u64; 2]) -> u64
    ensures value { result ≡ content_number (value_of bytes.now) }
    ensures part_after { part.new ≡ flat_content (value_of bytes.now) }
{
    match value(bytes) {
        Ok(content) => {
            *part = [content.start as u64, content.end as u64];
            0
        }
        Err(refusal) => {
            *part = [0, 0];
            refusal.number() as u64
        }
    }
}

#[tactic(auto, unfolding(crate::specs::Reading::flat_name, crate::specs::Reading::name_number))]
pub fn aglimtaq_next_name(list: &[u8], at: usize, entry: &mut [u64; 4]) -> u64
    ensures value { result ≡ name_number (next_name list.now (record { at = at })) }
    ensures after { entry.new ≡ flat_name (next_name list.now (record { at = at })) }
{
    let names = Names { at };
    match names.next(list) {
        Some((found, next)) => {
            let number = found.number;
            let name = found.name;
            *entry = [
                number.0 as u64,
                name.start as u64,
                name.end as u64,
                next.at as u64,
            ];
            1
        }
        None => {
            *entry = [0, 0, 0, 0];
            0
        }
    }
}
