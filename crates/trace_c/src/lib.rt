// The functions that Rust calls, and that C calls by the static library over them, trace_c_c. include/trace.h explains
// the arguments and the numbers; a struct there is here the array of its numbers.
#![tactic(auto)]

mod direct;
pub mod fields;
pub mod form;
pub mod gauge;
pub mod given;
mod open_write;
mod place;
mod read;
mod types;
mod utf8;
mod whole;
mod write;
pub mod write_all;

pub use gauge::{
    aglimtaq_house_next, aglimtaq_house_previous, aglimtaq_house_write, aglimtaq_house_write_gauge,
};
pub use open_write::{aglimtaq_abandon, aglimtaq_begin, aglimtaq_close, aglimtaq_portion};
pub use read::{
    aglimtaq_next_name, aglimtaq_one_record, aglimtaq_parse, aglimtaq_read_next,
    aglimtaq_read_previous, aglimtaq_value,
};
pub use utf8::aglimtaq_is_utf8;
pub use whole::{aglimtaq_count, aglimtaq_walk, aglimtaq_walk_back};
pub use write::aglimtaq_write;
pub use write_all::aglimtaq_write_all;
