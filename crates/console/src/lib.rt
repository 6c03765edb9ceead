// What the programs read standard input (`input`) and print (`print`) with, and say where that fails (`failure`).
#![tactic(auto)]

pub mod failure;
pub mod input;
pub mod print;
