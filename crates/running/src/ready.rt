// What a run needs of a generator, worked out once, kind by kind. Words are mirrored: bit j, the first being bit 0, is worth 2^j.
ghost use Rattle.std.specs.Prelude.{◌<◌, ◌≤◌, ◌^◌};
ghost use Rattle.document.specs.Limits.{most_output};
ghost use Rattle.running.specs.Ranges.{Mask, Words};

use document::ROW_WORDS;

// Kind 1. The mask has the taps: the state bits that the next bit sums, and the bit k.
#[derive(Clone, Copy)]
pub struct Tausworthe {
    // State bits, the bits of an output, and the steps between outputs.
    pub k: usize,
    pub bits: usize,
    pub nu: usize,
    pub mask: [u64; ROW_WORDS],
    pub ghost taps: { Mask k mask },
    pub ghost narrow: { bits ≤ most_output },
}

// Kind 2: r words of w bits. The mask has the coefficient of the word i at bit i.
#[derive(Clone, Copy)]
pub struct Gfsr {
    pub r: usize,
    pub w: usize,
    pub bits: usize,
    pub mask: [u64; ROW_WORDS],
    pub ghost words: { Words r w bits },
}

// Kinds 3 and 4, the numbers named as in a description. Kind 3 is the case p = 0 and u = v = w.
#[derive(Clone, Copy)]
pub struct Twister {
    pub r: usize,
    pub m: usize,
    pub w: usize,
    pub p: usize,
    pub bits: usize,
    pub a: u64,
    pub u: usize,
    pub s: usize,
    pub b: u64,
    pub t: usize,
    pub c: u64,
    pub v: usize,
    pub ghost words: { Words r w bits },
    pub ghost middle: { (1 ≤ m) × (m < r) },
    pub ghost part: { p < w },
    pub ghost twist: { a < 2 ^ w },
    pub ghost shifts: { (u ≤ w) × (s ≤ w) × (t ≤ w) × (v ≤ w) },
}

// The numbers that a `Twister` is made of, with the kind and the state bits: of any shifts, and of p up to a whole word, so of more than can run.
#[derive(Clone, Copy)]
pub struct TwisterNumbers {
    pub kind: u8,
    pub k: usize,
    pub r: usize,
    pub m: usize,
    pub w: usize,
    pub p: usize,
    pub bits: usize,
    pub a: u64,
    pub u: usize,
    pub s: usize,
    pub b: u64,
    pub t: usize,
    pub c: u64,
    pub v: usize,
}

// A generator made ready: which of the three it is says how it moves.
#[derive(Clone, Copy)]
pub enum Prepared {
    Tausworthe(Tausworthe),
    Gfsr(Gfsr),
    Twister(Twister),
}
