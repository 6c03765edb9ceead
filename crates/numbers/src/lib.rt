// Text and numbers, the lowest of the three crates of the codec: numbers in bytes (`le`) and with their bytes in the
// other order (`swap`), which bytes are text (`text`; the lines of RFC 3629 are in `lead`, the check in `blocks`), and
// bytes copied to an offset of a buffer (`copy`).
#![tactic(auto)]

mod blocks;
pub mod copy;
pub mod le;
mod lead;
pub mod swap;
pub mod text;
