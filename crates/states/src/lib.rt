// States, and rows of state bits, in words of 64 bits: bit i is worth 2^(i mod 64) in word i div 64. They are plain arrays, since the
// calls and the C structs above take them so, and a type round the array would only be put on and taken off at each.
#![tactic(auto)]

ghost use Rattle.std.specs.Prelude.{◌≡◌, ◌&&◌, ℕ, ◌+◌, ◌*◌, ◌<◌, ◌≤◌, ◌^◌};
ghost use Rattle.theory.specs.Def.{◌⊕◌, xorsum};
ghost use Rattle.digits.specs.Def.{digit, bits_of, Same};
ghost use Rattle.kinds.specs.Generator.{enter};
ghost use Rattle.kinds.specs.Transpose.{down, place};
ghost use Rattle.states.specs.Post.{Holds, Flipped, state_bits};

use document::ROW_WORDS;
use std::array;

mod past;
pub mod words;

pub use past::late_bit;

// w and its bounds are a fact of each call: a word's width, or one bit.
// The w bits of the state from position pos on. The state is lent: a copy would be laid in memory at each call, to be indexed.
pub fn word_at(s: &[u64; ROW_WORDS], pos: usize, w: usize) -> u64
    requires { (pos + w ≤ state_bits) × (1 ≤ w) × (w ≤ 32) }
    ensures { Holds w (λ j. bits_of s.now (pos + j)) result }
{
    let i = pos / 64;
    let o = pos % 64;
    if o + w <= 64 {
        words::low(s[i] >> o, w)
    } else {
        words::low((s[i] >> o) ^ (s[i + 1] << (64 - o)), w)
    }
}

// The state moved up by w bits, with the word `new` below.
pub fn shifted_up(s: [u64; ROW_WORDS], w: usize, new: u64) -> [u64; ROW_WORDS]
    requires { (1 ≤ w) × (w ≤ 32) × (new < 2 ^ w) }
    ensures { Same state_bits (bits_of result) (enter w (digit new) (bits_of s)) }
{
    array::from_fn(|i| {
        let below = if i == 0 { new } else { s[i - 1] >> (64 - w) };
        (s[i] << w) ^ below
    })
}

// The state moved down by w bits.
pub fn lowered(s: [u64; ROW_WORDS], w: usize) -> [u64; ROW_WORDS]
    requires { (1 ≤ w) × (w ≤ 32) }
    ensures { (i : ℕ) → bits_of result i ≡ down w (bits_of s) i }
{
    array::from_fn(|i| {
        let above = if i + 1 < ROW_WORDS {
            s[i + 1] << (64 - w)
        } else {
            0
        };
        (s[i] >> w) ^ above
    })
}

// The sum of two states, bit by bit.
pub fn added(s: [u64; ROW_WORDS], t: [u64; ROW_WORDS]) -> [u64; ROW_WORDS]
    ensures { (i : ℕ) → bits_of result i ≡ bits_of s i ⊕ bits_of t i }
{
    array::from_fn(|i| s[i] ^ t[i])
}

// The state with the n bits of y added at position pos.
pub fn placed(s: [u64; ROW_WORDS], pos: usize, n: usize, y: u64) -> [u64; ROW_WORDS]
    requires { (pos + n < state_bits) × (n ≤ 32) × (y < 2 ^ n) }
    ensures { (i : ℕ) → bits_of result i ≡ bits_of s i ⊕ place pos n (digit y) i }
{
    let q = pos / 64;
    let o = pos % 64;
    let mut r = s;
    r[q] ^= y << o;
    if o + n <= 64 {
        return r;
    }
    r[q + 1] ^= y >> (64 - o);
    r
}

// The state with bit i flipped.
pub fn flipped(s: [u64; ROW_WORDS], i: usize) -> [u64; ROW_WORDS]
    requires { i < state_bits }
    ensures { Flipped s i result }
{
    let mut r = s;
    r[i / 64] ^= 1 << (i % 64);
    r
}

// The sum of those bits of b that a names.
pub fn parity(a: [u64; ROW_WORDS], b: [u64; ROW_WORDS]) -> bool
    ensures { result ≡ xorsum state_bits (λ i. bits_of a i && bits_of b i) }
{
    let mut common = 0;
    for (x, y) in a.iter().zip(b.iter()) {
        common ^= x & y;
    }
    common.count_ones() % 2 == 1
}

// Bit i of the state. (Elimination's is of a place in a lent buffer, and asks for the place and its room; so is `flip_bit`.)
pub fn bit_at(s: &[u64; ROW_WORDS], i: usize) -> bool
    requires { i < state_bits }
    ensures { result ≡ bits_of s.now i }
{
    (s[i / 64] >> (i % 64)) % 2 == 1
}
