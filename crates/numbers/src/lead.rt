// The lines of RFC 3629, section 4: which bytes lead a character, and what each asks of the byte after it.
ghost use Rattle.std.specs.Prelude.{◌≡◌, Some};
ghost use Rattle.numbers.specs.declared.lead.Lead.TheVariants.{Second};
ghost use Rattle.numbers.specs.Text.{class_of};
ghost use Rattle.numbers.specs.Inner.{lead};

// What a lead byte asks of the byte after it. All further ones are tails. An enum, since `lead_of` may also give None:
// an Option in an Option would not tell "asks for nothing" from "leads nothing" by a name.
#[derive(Drop)]
pub(crate) enum Lead {
    // Nothing, since it is a character of its own.
    Alone,
    // To lie in a range, whose ends are in it.
    Second { low: u8, high: u8 },
}

// A lead byte that asks for a byte from low to high.
fn second(low: u8, high: u8) -> Option<Lead>
    ensures { result ≡ Some (Second low high) }
{
    Some(Lead::Second { low, high })
}

// What a byte asks for as a lead byte, or None where no line begins with it. The lines stand in the RFC's order, each
// in a comment.
pub(crate) fn lead_of(b: u8) -> Option<Lead>
    ensures { result ≡ lead (class_of b) }
{
    match b {
        0x00..=0x7f => Some(Lead::Alone), // UTF8-1 = %x00-7F
        0xc2..=0xdf => second(0x80, 0xbf), // UTF8-2 = %xC2-DF UTF8-tail
        0xe0 => second(0xa0, 0xbf), // UTF8-3 = %xE0 %xA0-BF UTF8-tail
        0xe1..=0xec => second(0x80, 0xbf), // / %xE1-EC 2( UTF8-tail )
        0xed => second(0x80, 0x9f), // / %xED %x80-9F UTF8-tail
        0xee..=0xef => second(0x80, 0xbf), // / %xEE-EF 2( UTF8-tail )
        0xf0 => second(0x90, 0xbf), // UTF8-4 = %xF0 %x90-BF 2( UTF8-tail )
        0xf1..=0xf3 => second(0x80, 0xbf), // / %xF1-F3 3( UTF8-tail )
        0xf4 => second(0x80, 0x8f), // / %xF4 %x80-8F 2( UTF8-tail )
        _ => None,
    }
}
