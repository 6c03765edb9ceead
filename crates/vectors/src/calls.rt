// A call to write: a type, its numbers, and its slice, which is a part of the pool; drawn.
ghost use Rattle.std.specs.Prelude.{◌≤◌};

use crate::pool::{ANY, LISTS, Pool};
use crate::random::Random;
use crate::rules::{addresses, shape_of};

// The type is its number in include/trace.h, as the codec is asked by it and a line prints it.
#[derive(Clone, Copy)]
pub(crate) struct Call<'a> {
    pub(crate) t: u64,
    pub(crate) a: u64,
    pub(crate) b: u64,
    pub(crate) c: u64,
    pub(crate) slice: &'a [u8],
}

// One of the 26 types that are written; 2 is Arch.
fn drawn_type(random: &mut Random) -> u64 {
    match random.draw(26) {
        0 => 1,
        n => 2 + n,
    }
}

// Addresses of `width` bytes; some at the border of four bytes, and a few of eight.
fn drawn_address(random: &mut Random, width: usize) -> u64 {
    match random.draw(16) {
        0 => 4294967295,
        1 => 4294967296,
        2 => random.number(8),
        _ => random.number(width),
    }
}

// Small counts, and tags of which some are taken.
fn first(t: u64, a: u64) -> u64 {
    match t {
        3 => a % 12,
        4 | 21 => if a < 128 { a % 14 } else { a },
        _ => a,
    }
}

// Where the slices of a type begin in the pool.
fn section(t: u64) -> usize
    ensures { result ≤ 2048 }
{
    match t {
        12 => 0,
        3 => LISTS,
        _ => ANY,
    }
}

// Short slices, some around 254 bytes, and a few around 65,530.
fn drawn_length(random: &mut Random) -> usize
    ensures { result ≤ 65543 }
{
    match random.draw(64) {
        0..=3 => 250 + random.draw(11) as usize,
        4 => 65520 + random.draw(24) as usize,
        _ => random.draw(41) as usize,
    }
}

// A call of a list in a form.
pub(crate) fn next_call<'a>(form: u64, pool: &'a Pool, random: &mut Random) -> Call<'a> {
    let t = drawn_type(random);
    let shape = shape_of(form, t);
    let (a, b) = match addresses(t) {
        0 => (random.number(shape.a), random.number(shape.b)),
        1 => (drawn_address(random, shape.a), random.number(shape.b)),
        _ => (
            drawn_address(random, shape.a),
            drawn_address(random, shape.b),
        ),
    };
    let c = random.number(shape.c);
    let start = section(t) + random.draw(400) as usize;
    let len = drawn_length(random);
    Call {
        t,
        a: first(t, a),
        b,
        c,
        slice: &pool[start..start + len],
    }
}
