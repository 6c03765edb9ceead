// A record's bytes by reference, the source's `RawRecord` (`raw_record`, and `plain` for plain slices); and the
// source's iterator over a trace, whose `next` moves the position itself (`trace_buffer`).
#![tactic(auto)]

pub mod plain;
pub mod raw_record;
pub mod trace_buffer;
