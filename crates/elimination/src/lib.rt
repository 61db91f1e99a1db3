// Rows of bits in words of 64, and elimination over them. Row p of a buffer begins at its word
// p * stride; bit i of a row is worth 2^(i mod 64) in its word i div 64. Loops go over the rows by
// number and not by chunks of the buffer, since a turn reads other rows than the one it writes. The
// buffer stands beside its layout: a struct of both was tried, proves, and makes clauses a third longer.
// The leaves take the buffer and the word where a row begins, and no part of it: an addition names two rows.
#![tactic(auto)]

ghost use Rattle.std.specs.Prelude.{◌≡◌, ℕ, ◌+◌, ◌*◌, ◌/◌, ◌<◌, ◌≤◌, ◌^◌, length, get_or};
ghost use Rattle.digits.specs.Def.{bits_from};
ghost use Rattle.span.specs.Def.{Zero, Leading, Slotted};
ghost use Rattle.elimination.specs.Words.{Apart, Cleared, Added, FirstWord, flipped};
ghost use Rattle.elimination.specs.Rows.{rows_of, slot_of, Reduced, Taken, Outcome, Tagging};

mod layout;

pub use layout::Layout;

// Bit i of the row at word `at`. (The crate states has its own, of an array of eight words: neither
// stands on the other. So has `flip_bit`.)
pub fn bit_at(buf: &[u64], at: usize, i: usize) -> bool
    requires { at + i / 64 < length buf.now }
    ensures { result ≡ bits_from buf.now at i }
{
    (buf[at + i / 64] >> (i % 64)) % 2 == 1
}

// Flips bit i of the row at word `at`.
pub fn flip_bit(buf: &mut [u64], at: usize, i: usize)
    requires { at + i / 64 < length buf.old }
    ensures { buf.new ≡ flipped buf.old at i }
{
    let w = at + i / 64;
    buf[w] ^= 1 << (i % 64);
}

// Zeroes the n words at `at`.
pub fn clear_words(buf: &mut [u64], at: usize, n: usize)
    requires { at + n ≤ length buf.old }
    ensures { Cleared buf.old at n buf.new }
{
    buf[at..at + n].fill(0);
}

// Adds the n words at `src` into the n words at `dst`.
pub fn add_words(buf: &mut [u64], dst: usize, src: usize, n: usize)
    requires { (dst + n ≤ length buf.old) × (src + n ≤ length buf.old) × Apart dst src n }
    ensures { Added buf.old dst src n buf.new }
{
    // An index loop: both ranges lie in one buffer, which no iterator lends twice.
    for k in 0..n {
        buf[dst + k] ^= buf[src + k];
    }
}

// The first word from `from` on, of the `lead` words at `at`, that is not zero.
fn first_word(buf: &[u64], at: usize, from: usize, lead: usize) -> Option<usize>
    requires { at + lead ≤ length buf.now }
    ensures { FirstWord buf.now at from lead result }
{
    (from..lead).find(|k| buf[at + *k] != 0)
}

// The leading bit of the row at word `at`: the lowest that is set in its first `lead` words, of
// which those before `from` are known to be zero; 64 * lead if none is set. A number and no Option,
// as `trailing_zeros` of a word is 64: the definition `Leading` of span speaks of it.
pub fn leading_bit(buf: &[u64], at: usize, from: usize, lead: usize) -> usize
    requires { (from ≤ lead) × (at + lead ≤ length buf.now) × (64 * lead < 2 ^ 64) × Zero (64 * from) (bits_from buf.now at) }
    ensures { Leading (64 * lead) (bits_from buf.now at) result }
{
    match first_word(buf, at, from, lead) {
        // `as`: a `usize` has no `From<u32>`, and the cast is proved to lose nothing.
        Some(k) => 64 * k + buf[at + k].trailing_zeros() as usize,
        None => 64 * lead,
    }
}

// Adds to row r the earlier rows that its leading bits in turn belong to, until its leading bit is
// nobody's; gives that bit, or 64 * lead if no bit of its first `lead` words is left (as
// `leading_bit`). A `while`: which bits come is seen from the row alone.
pub fn reduce_row(buf: &mut [u64], r: usize, layout: Layout, slots: &[usize]) -> usize
    requires in_room { (r * layout.stride + layout.width ≤ length buf.old) × (64 * layout.lead ≤ length slots.now) }
    requires slotted { Slotted (64 * layout.lead) r (rows_of buf.old layout.stride) (slot_of slots.now) }
    ensures { Reduced buf.old r layout.stride layout.width layout.lead buf.new result × (result < 64 * layout.lead → slot_of slots.now result ≡ 0) }
{
    let at = r * layout.stride;
    let end = 64 * layout.lead;
    let mut b = leading_bit(buf, at, 0, layout.lead);
    while b < end {
        // A slot is 0 or one more than its row: C lends the slots, and has no Option.
        let Some(s) = slots[b].checked_sub(1) else {
            return b;
        };
        let from = b / 64;
        add_words(
            buf,
            at + from,
            s * layout.stride + from,
            layout.width - from,
        );
        b = leading_bit(buf, at, from, layout.lead);
    }
    b
}

// Reduces row r by the rows before it and enters its leading bit; false if it is a sum of them. That
// the slots are long enough is asked of each call: C lends them.
pub fn take_row(buf: &mut [u64], r: usize, layout: Layout, slots: &mut [usize]) -> bool
    requires in_room { (r * layout.stride + layout.width ≤ length buf.old) × (64 * layout.lead ≤ length slots.old) × (r + 1 < 2 ^ 64) }
    requires slotted { Slotted (64 * layout.lead) r (rows_of buf.old layout.stride) (slot_of slots.old) }
    ensures { Taken buf.old r layout.stride layout.width layout.lead slots.old buf.new slots.new result }
{
    let b = reduce_row(buf, r, layout, slots);
    if b < 64 * layout.lead {
        slots[b] = r + 1;
        return true;
    }
    false
}

// Takes the rows in order, up to the first that is a sum of those before it; gives its number.
pub fn eliminate(buf: &mut [u64], rows: usize, layout: Layout, slots: &mut [usize]) -> Option<usize>
    requires { (rows * layout.stride ≤ length buf.old) × (64 * layout.lead ≤ length slots.old) }
    ensures { Outcome buf.old rows layout.stride layout.width layout.lead slots.old buf.new slots.new result }
{
    slots[..64 * layout.lead].fill(0);
    for r in 0..rows {
        if !take_row(buf, r, layout, slots) {
            return Some(r);
        }
    }
    None
}

// Writes into the words from `lead` to `width` of each row the set of the row alone.
pub fn set_tags(buf: &mut [u64], rows: usize, layout: Layout)
    requires { (rows * layout.stride ≤ length buf.old) × (64 * layout.lead + rows ≤ 64 * layout.width) × (64 * layout.lead + rows < 2 ^ 64) }
    ensures { Tagging buf.old rows layout.stride layout.width layout.lead buf.new }
{
    for p in 0..rows {
        let at = p * layout.stride;
        clear_words(buf, at + layout.lead, layout.width - layout.lead);
        flip_bit(buf, at, 64 * layout.lead + p);
    }
}
