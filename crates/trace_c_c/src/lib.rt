// The functions of trace_c for C, under the names of include/trace.h: each calls the function of the same name, and
// says what that says.
#![tactic(auto)]

mod gauge;
mod open_write;
mod read;
mod utf8;
mod whole;
mod write;
mod write_all;
