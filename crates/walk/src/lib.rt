// Whole traces. `count` counts the frames, whatever they hold. `walk` reads every record and counts how many are shown,
// how many are refused with each number, and the bytes of each kind.
#![tactic(auto)]

pub mod count;
mod step;
pub mod walk;
