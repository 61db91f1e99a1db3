// Values that do not fit their words, and fields of other kinds: refusal 6.
ghost use Rattle.std.specs.Prelude.{◌≡◌, ◌^◌, ltb, ◌||◌};
ghost use Rattle.digits.specs.Def.{nonzero};
ghost use Rattle.document.specs.Refusals.{wide_word, coefficient_past, bad_own, one_set, stray_one, stray_twist, stray_field, bad_value};

use crate::coefficients::coefficient_past;
use document::{Fields, Kind};

// Is x below 2^w?
#[tactic(auto, using(crate::proofs::Laws::small_below))]
fn fits(x: u32, w: u8) -> bool
    ensures { result ≡ ltb x (2 ^ w) }
{
    32 <= w || u64::from(x) < 1u64 << w
}

// Is a, b or c not below 2^w?
#[tactic(auto, unfolding(document::specs::Refusals::wide_word))]
fn wide_word(g: Fields) -> bool
    ensures { result ≡ wide_word g }
{
    !fits(g.a, g.w) || !fits(g.b, g.w) || !fits(g.c, g.w)
}

// Has the kind's own field a value that it may not have?
#[tactic(auto, using(document::proofs::Columns::in_column), unfolding(document::specs::Refusals::bad_own))]
fn bad_own(g: Fields) -> bool
    ensures { result ≡ bad_own g }
{
    match Kind::column(g.kind) {
        Kind::Tausworthe => coefficient_past(g, usize::from(g.k)),
        Kind::Gfsr => coefficient_past(g, usize::from(g.r)),
        Kind::Twisted | Kind::Mersenne => wide_word(g),
    }
}

// Is a field set that kind 1 alone has?
#[tactic(auto, using(crate::proofs::Laws::nonzero_test), unfolding(document::specs::Refusals::stray_one))]
fn stray_one(g: Fields) -> bool
    ensures { result ≡ stray_one g }
{
    g.k != 0 || g.nu != 0
}

// Is a field set that kinds 1 and 2 have not got?
#[tactic(auto, using(crate::proofs::Laws::nonzero_test), unfolding(document::specs::Refusals::stray_twist, document::specs::Refusals::one_set))]
fn stray_twist(g: Fields) -> bool
    ensures { result ≡ stray_twist g }
{
    g.a != 0 || g.b != 0 || g.c != 0 || g.p != 0 || g.u != 0 || g.v != 0 || g.s != 0 || g.t != 0
}

// Is a field set that the kind has not got?
#[tactic(auto, using(document::proofs::Columns::in_column, crate::proofs::Laws::nonzero_test), unfolding(document::specs::Refusals::stray_field, document::specs::Refusals::one_set))]
fn stray_field(g: Fields) -> bool
    ensures { result ≡ stray_field g }
{
    match Kind::column(g.kind) {
        Kind::Tausworthe => g.r != 0 || g.m != 0 || g.w != 0 || stray_twist(g),
        Kind::Gfsr => stray_one(g) || g.m != 0 || stray_twist(g),
        Kind::Twisted => stray_one(g) || g.p != 0 || g.u != 0 || g.v != 0 || coefficient_past(g, 0),
        Kind::Mersenne => stray_one(g) || coefficient_past(g, 0),
    }
}

// Is a field's value refused with 6?
#[tactic(auto, unfolding(document::specs::Refusals::bad_value))]
pub fn bad_value(g: Fields) -> bool
    ensures { result ≡ bad_value g }
{
    bad_own(g) || stray_field(g)
}
