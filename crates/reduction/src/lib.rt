// Reduced row echelon form in place, and the rows moved to the front of their buffer. Loops go over
// rows and columns by number, since each turn reads one row and writes another of the same buffer.
// The buffer stands beside its layout, as in elimination; where c lies, and what is zero before it,
// are facts of that call's column.
#![tactic(auto)]

ghost use Rattle.std.specs.Prelude.{◌≡◌, ℕ, ◌+◌, ◌*◌, ◌/◌, ◌<◌, ◌≤◌, length};
ghost use Rattle.span.specs.Def.{Zero};
ghost use Rattle.elimination.specs.Rows.{rows_of};
ghost use Rattle.reduction.specs.Columns.{Holder, AddedIf, Column, Brought, Pivoted, ReducedForm};
ghost use Rattle.reduction.specs.Packs.{Moved, Packed};

use elimination::Layout;

// The first row from `from` on, below n, that has the bit c.
pub fn find_row(buf: &[u64], from: usize, n: usize, stride: usize, c: usize) -> Option<usize>
    requires { (from ≤ n) × (n * stride ≤ length buf.now) × (c / 64 < stride) }
    ensures { Holder buf.now from n stride c result }
{
    (from..n).find(|p| elimination::bit_at(buf, *p * stride, c))
}

// Adds row r, whose words before that of the bit c are zero, into row q if that has the bit c. One
// call of `add_words`, as in `bring_row`: what they share is that function.
pub fn add_if(buf: &mut [u64], q: usize, r: usize, layout: Layout, c: usize)
    requires in_room { (q ≡ r → ⊥) × (q * layout.stride + layout.width ≤ length buf.old) × (r * layout.stride + layout.width ≤ length buf.old) × (c < 64 * layout.width) }
    requires zero { Zero (64 * (c / 64)) (rows_of buf.old layout.stride r) }
    ensures { AddedIf buf.old q r layout.stride layout.width c buf.new }
{
    let at = q * layout.stride;
    if elimination::bit_at(buf, at, c) {
        let from = c / 64;
        elimination::add_words(
            buf,
            at + from,
            r * layout.stride + from,
            layout.width - from,
        );
    }
}

// Adds row r into each other row below n that has the bit c.
pub fn clear_column(buf: &mut [u64], n: usize, r: usize, layout: Layout, c: usize)
    requires in_room { (r < n) × (n * layout.stride ≤ length buf.old) × (c < 64 * layout.width) }
    requires zero { Zero (64 * (c / 64)) (rows_of buf.old layout.stride r) }
    ensures { Column buf.old n r layout.stride layout.width c n buf.new }
{
    for q in 0..n {
        if q != r {
            add_if(buf, q, r, layout, c);
        }
    }
}

// Adds row p, whose words before `from` are zero, into row r, if they are two.
pub fn bring_row(buf: &mut [u64], r: usize, p: usize, layout: Layout, from: usize)
    requires in_room { (r * layout.stride + layout.width ≤ length buf.old) × (p * layout.stride + layout.width ≤ length buf.old) × (from ≤ layout.width) }
    requires zero { Zero (64 * from) (rows_of buf.old layout.stride p) }
    ensures { Brought buf.old r p layout.stride layout.width buf.new }
{
    if p != r {
        let at = r * layout.stride;
        elimination::add_words(
            buf,
            at + from,
            p * layout.stride + from,
            layout.width - from,
        );
    }
}

// Makes row r, with row p added if they are two, the one row below n that has the bit c.
pub fn take_pivot(buf: &mut [u64], n: usize, r: usize, p: usize, layout: Layout, c: usize)
    requires in_room { (r < n) × (p < n) × (n * layout.stride ≤ length buf.old) × (c < 64 * layout.width) }
    requires zero { Zero (64 * (c / 64)) (rows_of buf.old layout.stride r) × Zero (64 * (c / 64)) (rows_of buf.old layout.stride p) }
    ensures { Pivoted buf.old n r p layout.stride layout.width c buf.new }
{
    bring_row(buf, r, p, layout, c / 64);
    clear_column(buf, n, r, layout, c);
}

// Brings the first k bits of n rows into reduced row echelon form, column by column; gives the
// number of rows that are not zero there.
pub fn reduce(buf: &mut [u64], n: usize, layout: Layout, k: usize) -> usize
    requires { (n * layout.stride ≤ length buf.old) × (k ≤ 64 * layout.width) }
    ensures { ReducedForm buf.old n layout.stride layout.width k result buf.new }
{
    let mut rank = 0;
    for c in 0..k {
        // Once each row leads a column, no row is looked for.
        if rank < n {
            if let Some(p) = find_row(buf, rank, n, layout.stride, c) {
                take_pivot(buf, n, rank, p, layout, c);
                rank += 1;
            }
        }
    }
    rank
}

// Moves the first `width` words of each of n rows to the front, one row behind the other.
pub fn move_rows(buf: &mut [u64], n: usize, layout: Layout)
    requires { n * layout.stride ≤ length buf.old }
    ensures { Moved buf.old n layout.stride layout.width buf.new }
{
    for p in 0..n {
        let at = p * layout.stride;
        buf.copy_within(at..at + layout.width, p * layout.width);
    }
}

// Moves n rows to the front and zeroes what lies behind them, up to the word `total`.
pub fn pack(buf: &mut [u64], n: usize, layout: Layout, total: usize)
    requires { (n * layout.stride ≤ length buf.old) × (n * layout.width ≤ total) × (total ≤ length buf.old) }
    ensures { Packed buf.old n layout.stride layout.width total buf.new }
{
    move_rows(buf, n, layout);
    let at = n * layout.width;
    elimination::clear_words(buf, at, total - at);
}
