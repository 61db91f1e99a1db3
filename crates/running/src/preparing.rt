// A description made ready to run: numbers widened, words mirrored, coefficients laid as a mask of state bits.
ghost use Rattle.std.specs.Prelude.{◌≡◌, ℕ, ◌+◌, ◌-◌, ◌*◌, ◌/◌, ◌%◌, ◌<◌, ◌≤◌, get_or};
ghost use Rattle.digits.specs.Def.{digit, bits_of, word_of};
ghost use Rattle.kinds.specs.Transpose.{taps};
ghost use Rattle.document.specs.Limits.{most_bits, most_output};
ghost use Rattle.document.specs.Ranges.{Ranges1, Ranges2, Ranges4, TwistRanges};
ghost use Rattle.states.specs.Post.{Holds};
ghost use Rattle.running.specs.Prepared.{Prepared1, Prepared2, Prepared4, Numbers4};

use crate::{Gfsr, Tausworthe, Twister, TwisterNumbers};
use document::{COEFFICIENT_BYTES, Fields, ROW_WORDS};
use states::words;

// A word of w bits mirrored.
fn word_of(x: u32, w: u8) -> u64
    requires { w ≤ most_output }
    ensures { Holds w (word_of w x) result }
{
    words::mirrored(u64::from(x), usize::from(w))
}

// The coefficients as a mask: a_(i+1) at bit i.
pub fn coefficient_mask(c: [u8; COEFFICIENT_BYTES]) -> [u64; ROW_WORDS]
    ensures { (i : ℕ) → bits_of result i ≡ digit (get_or c (i / 8) 0) (7 - i % 8) }
{
    let mut mask = [0; ROW_WORDS];
    for (j, byte) in c.iter().enumerate() {
        // In two steps: in one, the checker says that it does not cover the array both lent to the call and laid by it here.
        let next = states::placed(mask, 8 * j, 8, words::mirrored(u64::from(*byte), 8));
        mask = next;
    }
    mask
}

// The taps of kind 1: the first k bits of c the other way round, and the bit k.
pub fn tap_mask(k: usize, c: [u64; ROW_WORDS]) -> [u64; ROW_WORDS]
    requires { k ≤ most_bits }
    ensures { (i : ℕ) → bits_of result i ≡ taps k (bits_of c) i }
{
    let mut mask = states::flipped([0; ROW_WORDS], k);
    for i in 0..k {
        // In two steps, as above; and a fold's closure would have to be told that i is below k.
        let next = states::placed(mask, k - 1 - i, 1, states::word_at(&c, i, 1));
        mask = next;
    }
    mask
}

// Kind 1.
pub fn of_tausworthe(g: Fields) -> Tausworthe
    requires { Ranges1 g }
    ensures { Prepared1 g result }
{
    let k = usize::from(g.k);
    Tausworthe {
        k,
        bits: usize::from(g.bits),
        nu: usize::from(g.nu),
        mask: tap_mask(k, coefficient_mask(g.coefficients)),
    }
}

// Kind 2.
#[tactic(auto, unfolding(document::specs::Generator::coefficient))]
pub fn of_gfsr(g: Fields) -> Gfsr
    requires { Ranges2 g }
    ensures { Prepared2 g result }
{
    Gfsr {
        r: usize::from(g.r),
        w: usize::from(g.w),
        bits: usize::from(g.bits),
        mask: coefficient_mask(g.coefficients),
    }
}

// The numbers of kinds 3 and 4 where the last word lacks p bits and the right shifts are u and v, whatever the fields say of these three.
pub fn twister_numbers(g: Fields, p: usize, u: usize, v: usize) -> TwisterNumbers
    requires { TwistRanges g × (p ≤ g.w) }
    ensures { (result.kind ≡ g.kind) × Numbers4 g result p u v }
{
    let r = usize::from(g.r);
    let w = usize::from(g.w);
    TwisterNumbers {
        kind: g.kind,
        k: r * w - p,
        r,
        m: usize::from(g.m),
        w,
        p,
        bits: usize::from(g.bits),
        a: word_of(g.a, g.w),
        u,
        s: usize::from(g.s),
        b: word_of(g.b, g.w),
        t: usize::from(g.t),
        c: word_of(g.c, g.w),
        v,
    }
}

// The generator of those numbers, where they can run.
pub fn shaped(g: Fields, p: usize, u: usize, v: usize) -> Twister
    requires { TwistRanges g × (p < g.w) × (u ≤ g.w) × (v ≤ g.w) }
    ensures { Prepared4 g result p u v }
{
    let n = twister_numbers(g, p, u, v);
    Twister {
        r: n.r,
        m: n.m,
        w: n.w,
        p: n.p,
        bits: n.bits,
        a: n.a,
        u: n.u,
        s: n.s,
        b: n.b,
        t: n.t,
        c: n.c,
        v: n.v,
    }
}

// Kind 3.
pub fn of_twisted(g: Fields) -> Twister
    requires { TwistRanges g }
    ensures { Prepared4 g result 0 g.w g.w }
{
    let w = usize::from(g.w);
    shaped(g, 0, w, w)
}

// Kind 4.
pub fn of_twister(g: Fields) -> Twister
    requires { Ranges4 g }
    ensures { Prepared4 g result g.p g.u g.v }
{
    shaped(g, usize::from(g.p), usize::from(g.u), usize::from(g.v))
}
