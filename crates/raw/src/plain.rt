// What `RawRecord` tells of a record's bytes, for callers that have them as a plain slice: each function makes the
// struct and calls the method of its name. They are public functions whose promises the table of docs/PROOF.md lists,
// and five edits of must-fail.more hold them; so they stay.
ghost use Rattle.std.specs.Prelude.{◌≡◌, length};
ghost use Rattle.frames.specs.Frames.{value_of};
ghost use Rattle.records.specs.Reading.{parse};
ghost use Rattle.records.specs.Kinds.{kind_in};

use crate::raw_record::RawRecord;
use frames::read::Part;
use frames::refusal::Refusal;
use records::address::AddressForm;
use records::kind::Kind;
use records::record::Record;

pub fn kind(s: &[u8]) -> Result<Kind, Refusal>
    ensures { result ≡ kind_in s.now }
{
    RawRecord::new(s).kind()
}

pub fn value(s: &[u8]) -> Result<Part, Refusal>
    ensures { result ≡ value_of s.now }
{
    RawRecord::new(s).value()
}

pub fn len(s: &[u8]) -> usize
    ensures { result ≡ length s.now }
{
    RawRecord::new(s).len()
}

pub fn parse(s: &[u8], form: AddressForm) -> Result<Record, Refusal>
    ensures { result ≡ parse form 0 s.now }
{
    RawRecord::new(s).parse(form)
}

pub fn bytes(s: &[u8]) -> &[u8]
    ensures { result ≡ s.entry }
{
    RawRecord::new(s).bytes()
}
