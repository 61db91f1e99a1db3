// Words of w bits, held mirrored: bit j, the first being bit 0, is worth 2^j. w and the word go beside one another, not as one struct: a
// tempering is four steps at one w, and a struct would carry w through each and say twice that it is the same.
ghost use Rattle.std.specs.Prelude.{◌≡◌, true, ℕ, ◌+◌, ◌-◌, ◌*◌, ◌%◌, ◌<◌, ◌≤◌, ◌^◌};
ghost use Rattle.digits.specs.Def.{digit, word_of};
ghost use Rattle.kinds.specs.Generator.{twist, add_left, add_right, join};
ghost use Rattle.kinds.specs.Transpose.{untwist, un_left, un_right};
ghost use Rattle.states.specs.Post.{Holds, Exchanged, exchanges};

// The low w bits of x.
pub fn low(x: u64, w: usize) -> u64
    requires { w < 64 }
    ensures { result ≡ x % 2 ^ w }
{
    x & ((1 << w) - 1)
}

// A·x: x shifted right by one, plus a if the last bit of x is 1.
pub fn twisted(w: usize, a: u64, x: u64) -> u64
    requires { (1 ≤ w) × (w ≤ 32) × (a < 2 ^ w) × (x < 2 ^ w) }
    ensures { Holds w (twist w (digit a) (digit x)) result }
{
    let y = low(x << 1, w);
    if x >> (w - 1) == 1 { y ^ a } else { y }
}

// The transpose of the twist.
pub fn untwisted(w: usize, a: u64, y: u64) -> u64
    requires { (1 ≤ w) × (w ≤ 32) × (y < 2 ^ w) }
    ensures { Holds w (untwist w (digit a) (digit y)) result }
{
    let h = y >> 1;
    if (a & y).count_ones() % 2 == 1 {
        h ^ (1 << (w - 1))
    } else {
        h
    }
}

// x + ((x left u) and b).
pub fn add_left(w: usize, u: usize, b: u64, x: u64) -> u64
    requires { (w ≤ 32) × (u ≤ w) × (x < 2 ^ w) }
    ensures { Holds w (add_left w u (digit b) (digit x)) result }
{
    x ^ (b & (x >> u))
}

// Its transpose, y + ((b and y) right u).
pub fn un_left(w: usize, u: usize, b: u64, y: u64) -> u64
    requires { (w ≤ 32) × (u ≤ w) × (y < 2 ^ w) }
    ensures { Holds w (un_left u (digit b) (digit y)) result }
{
    y ^ low((b & y) << u, w)
}

// x + (x right u).
pub fn add_right(w: usize, u: usize, x: u64) -> u64
    requires { (w ≤ 32) × (u ≤ w) × (x < 2 ^ w) }
    ensures { Holds w (add_right u (digit x)) result }
{
    x ^ low(x << u, w)
}

// Its transpose, y + (y left u).
pub fn un_right(w: usize, u: usize, y: u64) -> u64
    requires { (w ≤ 32) × (u ≤ w) × (y < 2 ^ w) }
    ensures { Holds w (un_right w u (digit y)) result }
{
    y ^ (y >> u)
}

// The first n bits of x, then those of y.
pub fn joined(w: usize, n: usize, x: u64, y: u64) -> u64
    requires { (n ≤ w) × (w ≤ 32) × (x < 2 ^ w) × (y < 2 ^ w) }
    ensures { Holds w (join n (digit x) (digit y)) result }
{
    low(x ^ y, n) ^ y
}

// Fields of d bits exchanged in pairs; the mask m has the lower field of each pair.
fn exchanged(x: u64, m: u64, d: usize) -> u64
    requires { (x < 2 ^ 32) × (d ≤ 16) × (m < 2 ^ (32 - d)) × (exchanges m d 32 ≡ true) }
    ensures { Exchanged d x result }
{
    (m & (x >> d)) ^ ((m & x) << d)
}

// The n low bits of x the other way round.
#[tactic(auto, unfolding(digits::specs::Def::digit))]
pub fn mirrored(x: u64, n: usize) -> u64
    requires { (x < 2 ^ 32) × (n ≤ 32) }
    ensures { Holds n (word_of n x) result }
{
    let a = exchanged(x, 0x55555555, 1);
    let b = exchanged(a, 0x33333333, 2);
    let c = exchanged(b, 0x0f0f0f0f, 4);
    let d = exchanged(c, 0x00ff00ff, 8);
    let e = exchanged(d, 0x0000ffff, 16);
    e >> (32 - n)
}
