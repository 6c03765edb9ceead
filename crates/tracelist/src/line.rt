// One line of the listing, before it is text.
ghost use Rattle.std.specs.Prelude.{◌≡◌, ◌≤◌, ◌<◌, length};
ghost use Rattle.records.specs.declared.address.AddressForm.{AddressForm};
ghost use Rattle.records.specs.Positions.{here, read_next};
ghost use Rattle.tracelist.specs.Listing.{record_line, line_of};

use frames::head::kind;
use frames::read::Part;
use frames::refusal::Refusal;
use records::address::AddressForm;
use records::position::{Answer, next_at};

// A framed record with its kind, and its refusal if it is refused; or the last line. No caller compares or prints one.
#[derive(Clone, Copy)]
pub enum Line {
    Record {
        start: usize,
        length: usize,
        kind: u8,
        refusal: Option<Refusal>,
    },
    End(usize),
    Unfinished {
        start: usize,
        wanted: usize,
    },
}

fn record_line(s: &[u8], part: Part, refusal: Option<Refusal>) -> Line
    requires { (part.start < part.end) × (part.end ≤ length s.now) }
    ensures { result ≡ record_line s.now part refusal }
{
    Line::Record {
        start: part.start,
        length: part.end - part.start,
        kind: kind(s[part.start]),
        refusal,
    }
}

// The line of what is at an offset of the trace, whose addresses have eight bytes, least significant first.
pub fn line_at(s: &[u8], at: usize) -> Line
    ensures { result ≡ line_of s.now (read_next s.now (here AddressForm.Le64 at)) }
{
    match next_at(AddressForm::Le64, s, at).answer {
        Answer::Shown(_, part) => record_line(s, part, None),
        Answer::RefusedAt(refusal, part) => record_line(s, part, Some(refusal)),
        Answer::Refused(_) | Answer::Finished => Line::End(at),
        Answer::Unfinished(wanted) => Line::Unfinished { start: at, wanted },
    }
}
