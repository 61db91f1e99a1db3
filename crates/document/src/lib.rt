// What document 01 names: the limits, and the fields of a description. Its sentences stand in specs/, a file for each heading.
#![tactic(auto)]

mod kind;
mod refusals;

pub use kind::Kind;
pub use refusals::{Refusal, refusal_of};

// The most state bits of a generator, and the words of 64 bits that hold them.
pub const MOST_BITS: usize = 480;

pub const ROW_WORDS: usize = 8;

// The work buffer: a row for each of the most state bits and one more, each with room for a set beside it.
pub const WORK_WORDS: usize = (MOST_BITS + 1) * (2 * ROW_WORDS);

// The most bits of an output.
pub const MOST_OUTPUT: usize = 32;

// The bytes of the coefficients in a description.
pub const COEFFICIENT_BYTES: usize = 60;

// A dimension t and a resolution l: two sorts of count, so that (t, l) never turns into (l, t).
#[derive(Clone, Copy)]
pub struct Dimension(pub usize);

#[derive(Clone, Copy)]
pub struct Resolution(pub usize);

// The kind and the body's fields of a description; those of other kinds are zero.
#[repr(C)]
#[derive(Clone, Copy)]
pub struct Fields {
    // A byte still, since C fills this struct: `Kind::try_from` says which kind it names.
    pub kind: u8,
    // Kind 1: state bits and steps between outputs.
    pub k: u16,
    pub nu: u8,
    // Kinds 2 to 4: words of the state, the nearer of the two words added, bits of a word, bits that the last word lacks.
    pub r: u16,
    pub m: u16,
    pub w: u8,
    pub p: u8,
    // The bits of an output, L.
    pub bits: u8,
    // Kinds 3 and 4: the twist, then shifts and masks of the tempering in their order: U, S with b, T with c, V.
    pub a: u32,
    pub u: u8,
    pub s: u8,
    pub b: u32,
    pub t: u8,
    pub c: u32,
    pub v: u8,
    // Kinds 1 and 2: a_1 is the bit of value 128 in the first byte.
    pub coefficients: [u8; COEFFICIENT_BYTES],
}

impl Fields {
    // No fields at all: what a refused reading gives.
    pub const NONE: Fields = Fields {
        kind: 0,
        k: 0,
        nu: 0,
        r: 0,
        m: 0,
        w: 0,
        p: 0,
        bits: 0,
        a: 0,
        u: 0,
        s: 0,
        b: 0,
        t: 0,
        c: 0,
        v: 0,
        coefficients: [0; COEFFICIENT_BYTES],
    };
}
