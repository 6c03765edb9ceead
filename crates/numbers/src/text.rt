// Which bytes are text: RFC 3629. ASCII is told first; all else goes by `blocks`.
ghost use Rattle.std.specs.Prelude.{◌≡◌, fold, max};
ghost use Rattle.numbers.specs.Text.{utf8};

use crate::blocks::by_blocks;

// The highest byte, or 0 if there is none. The fold has no early exit, so that the compiler takes many bytes at a step.
fn highest(s: &[u8]) -> u8
    ensures { result ≡ fold max 0 s.now }
{
    s.iter().fold(0, |top, b| top.max(*b))
}

// Whether all of s is text. ASCII always is, and most names are.
#[tactic(auto, using(crate::proofs::HighestLaws::highest_ascii))]
pub fn is_utf8(s: &[u8]) -> bool
    ensures { result ≡ utf8 s.now }
{
    highest(s) < 0x80 || by_blocks(s)
}
