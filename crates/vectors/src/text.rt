// Text by RFC 3629 and names by document 01, as plain comparisons.
ghost use Rattle.std.specs.Prelude.{◌<◌, length, IfSome};

fn tail(b: u8) -> bool {
    matches!(b, 0x80..=0xbf)
}

// The second byte of a character.
fn second(lead: u8, b: u8) -> bool {
    match lead {
        0xe0 => matches!(b, 0xa0..=0xbf),
        0xed => matches!(b, 0x80..=0x9f),
        0xf0 => matches!(b, 0x90..=0xbf),
        0xf4 => matches!(b, 0x80..=0x8f),
        _ => tail(b),
    }
}

// The bytes after the character that s begins with.
fn after_character(s: &[u8]) -> Option<&[u8]>
    ensures { IfSome result (λ rest. length rest.now < length s.now) }
{
    match s {
        [0x00..=0x7f, rest @ ..] => Some(rest),
        [0xc2..=0xdf, b, rest @ ..] if tail(*b) => Some(rest),
        [a @ 0xe0..=0xef, b, c, rest @ ..] if second(*a, *b) && tail(*c) => Some(rest),
        [a @ 0xf0..=0xf4, b, c, d, rest @ ..] if second(*a, *b) && tail(*c) && tail(*d) => {
            Some(rest)
        }
        _ => None,
    }
}

// Whether bytes are whole characters, one after the other.
pub(crate) fn is_text(s: &[u8]) -> bool {
    let mut rest = s;
    while let Some(after) = after_character(rest) {
        rest = after;
    }
    rest.is_empty()
}

// Whether bytes are a name to write: text of at most 32 bytes, none of them zero.
pub(crate) fn is_name(s: &[u8]) -> bool {
    s.len() <= 32 && !s.contains(&0) && is_text(s)
}
