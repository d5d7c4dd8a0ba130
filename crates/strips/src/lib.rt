// Price strips (document 02, request 2): the five messages that bring them, a second lent table that keeps them, and reading one.
#![tactic(auto)]

mod forms;
mod tables;
mod words;

pub use forms::{is_listed, is_sized, is_strip};
pub use tables::{clear, read_strip, take};

// The words of a strip: its code, its flags, its nine values, and a spare one.
pub const STRIP_WORDS: usize = 12;

// How many values. One goes by its number below nine, which its callers have as a constant or out of a range: a type for it would be no plainer.
const VALUES: usize = 9;

const SPARE_AT: usize = 11;

// What a field brings: a price; a quantity; the direction of an imbalance; its quantity, which counts only beside a direction.
#[derive(Clone, Copy, Debug, PartialEq, Eq)]
pub enum Sort {
    Price,
    Quantity,
    Direction,
    Imbalance,
}

// Where a value comes from: the place of its field in a message, and what the field brings.
#[derive(Clone, Copy, Debug, PartialEq, Eq)]
pub struct Source {
    pub at: usize,
    pub sort: Sort,
}

// A message: its size, the number of its first value, and how many it brings.
#[derive(Clone, Copy, Debug, PartialEq, Eq)]
pub struct Shape {
    pub size: usize,
    pub first: usize,
    pub count: usize,
}

// A strip: bit k of the flags is set once value k has come. Flags and no Options: a slot's words, sound or not, are read as it (specs/Words: strip_of).
#[derive(Clone, Copy, Debug, PartialEq, Eq)]
pub struct Strip {
    pub flags: u64,
    pub values: [u64; VALUES],
}

// What a strip shows: the flags and the values, prices signed as sent, 0 where none has come.
#[derive(Clone, Copy, Debug, PartialEq, Eq)]
pub struct Shown {
    pub flags: u64,
    pub nominal: i64,
    pub iep: i64,
    pub iev: u64,
    pub reference: i64,
    pub lower: i64,
    pub upper: i64,
    pub direction: u64,
    pub imbalance: u64,
    pub closing: i64,
}
