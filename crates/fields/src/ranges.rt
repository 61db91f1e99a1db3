// Sizes, output bits and shifts: refusals 3, 4 and 5.
ghost use Rattle.std.specs.Prelude.{◌≡◌};
ghost use Rattle.document.specs.Limits.{most_output};
ghost use Rattle.document.specs.Generator.{by_kind};
ghost use Rattle.document.specs.Refusals.{outside, bad_words, bad_twist, bad_size, bad_bits, bad_pair, bad_shift};

use document::{Fields, Kind, MOST_BITS, MOST_OUTPUT};

// Is x not low to high?
#[tactic(auto, unfolding(document::specs::Refusals::outside))]
pub fn outside(low: usize, high: usize, x: usize) -> bool
    ensures { result ≡ outside low high x }
{
    !(low..=high).contains(&x)
}

// w and r·w, for kinds 2 to 4.
#[tactic(auto, unfolding(document::specs::Refusals::bad_words))]
fn bad_words(g: Fields) -> bool
    ensures { result ≡ bad_words g }
{
    let w = usize::from(g.w);
    outside(1, MOST_OUTPUT, w) || MOST_BITS < usize::from(g.r) * w
}

// Those, and r and m, for kinds 3 and 4.
#[tactic(auto, unfolding(document::specs::Refusals::bad_twist))]
fn bad_twist(g: Fields) -> bool
    ensures { result ≡ bad_twist g }
{
    let r = usize::from(g.r);
    bad_words(g) || r < 2 || outside(1, r - 1, usize::from(g.m))
}

// Is k, r, w, r·w, m or p out of range?
#[tactic(auto, using(document::proofs::Columns::in_column, crate::proofs::Laws::le_not_lt), unfolding(document::specs::Refusals::bad_size))]
pub fn bad_size(g: Fields) -> bool
    ensures { result ≡ bad_size g }
{
    match Kind::column(g.kind) {
        Kind::Tausworthe => outside(1, MOST_BITS, usize::from(g.k)),
        Kind::Gfsr => bad_words(g) || g.r < 1,
        Kind::Twisted => bad_twist(g),
        Kind::Mersenne => bad_twist(g) || g.w <= g.p,
    }
}

// The most bits that an output may have.
#[tactic(auto, using(document::proofs::Columns::in_column))]
fn most_bits(g: Fields) -> usize
    ensures { result ≡ by_kind g.kind most_output g.w g.w g.w }
{
    match Kind::column(g.kind) {
        Kind::Tausworthe => MOST_OUTPUT,
        Kind::Gfsr | Kind::Twisted | Kind::Mersenne => usize::from(g.w),
    }
}

// Is L out of range?
#[tactic(auto, unfolding(document::specs::Refusals::bad_bits))]
pub fn bad_bits(g: Fields) -> bool
    ensures { result ≡ bad_bits g }
{
    outside(1, most_bits(g), usize::from(g.bits))
}

// Is one of two shifts not 1 to w?
#[tactic(auto, unfolding(document::specs::Refusals::bad_pair))]
fn bad_pair(g: Fields, x: u8, y: u8) -> bool
    ensures { result ≡ bad_pair g x y }
{
    let w = usize::from(g.w);
    outside(1, w, usize::from(x)) || outside(1, w, usize::from(y))
}

// Is ν or a shift out of range?
#[tactic(auto, using(document::proofs::Columns::in_column), unfolding(document::specs::Refusals::bad_shift))]
pub fn bad_shift(g: Fields) -> bool
    ensures { result ≡ bad_shift g }
{
    match Kind::column(g.kind) {
        Kind::Tausworthe => outside(1, 255, usize::from(g.nu)),
        Kind::Gfsr => false,
        Kind::Twisted => bad_pair(g, g.s, g.t),
        Kind::Mersenne => bad_pair(g, g.s, g.t) || bad_pair(g, g.u, g.v),
    }
}
