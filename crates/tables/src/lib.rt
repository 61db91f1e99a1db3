// The tables of a report, from the first dependent bits: for each dimension the largest resolution that gets a yes, for each
// resolution the largest dimension, and the sums of what they lack. Nothing here knows of generators.
#![tactic(auto)]

mod axis;
mod sizes;

ghost use Rattle.std.specs.Prelude.{◌≡◌, ℕ, ◌+◌, ◌-◌, ◌<◌, ◌≤◌, get_or};
ghost use Rattle.document.specs.Limits.{most_bits, most_output};
ghost use Rattle.document.specs.Report.{largest, total};
ghost use Rattle.tables.specs.Tables.{says, resolution_of, dimension_of, Entries};

pub use axis::Axis;
use document::{Dimension, MOST_BITS, MOST_OUTPUT, Resolution};
pub use sizes::Sizes;

// The question (t, l): yes where the t * l bits end at or before the first dependent one.
pub fn yes(first: &[usize; MOST_OUTPUT], t: Dimension, l: Resolution) -> bool
    requires { (t.0 ≤ most_bits) × (1 ≤ l.0) × (l.0 ≤ most_output) }
    ensures { result ≡ says first.now t.0 l.0 }
{
    t.0 * l.0 <= first[l.0 - 1]
}

// Entry n - 1: the largest number from the most down that gets a yes, or 0; zero past the last entry.
// Two loops in one function, and a store for each entry: document 01 asks for a labelled break and an array filled entry by entry.
// That N is enough is asked in words: Rattle has no computed const argument, by which an axis could give N.
fn table<A: Axis, const N: usize>(first: &[usize; MOST_OUTPUT], sizes: Sizes) -> [u32; N]
    requires { A.count sizes ≤ N }
    ensures { Entries N (A.count sizes) (λ n. largest (A.answer first.now n) (A.most sizes n)) result }
{
    let mut table = [0u32; N];
    'entries: for i in 0..A::entries(sizes) {
        'numbers: for m in (1..=A::most(sizes, i + 1)).rev() {
            if A::yes(first, sizes, i + 1, m) {
                table[i] = m as u32;
                break 'numbers;
            }
        }
    }
    table
}

// The two tables by the names that docs/PROMISES.md gives them, each an instance of `table`.
// Entry t - 1: the largest resolution from the most down that gets a yes, or 0; zero past k.
pub fn resolutions(first: &[usize; MOST_OUTPUT], sizes: Sizes) -> [u32; MOST_BITS]
    ensures { Entries most_bits sizes.k (resolution_of (says first.now) sizes.k sizes.bits) result }
{
    table::<Dimension, MOST_BITS>(first, sizes)
}

// Entry l - 1: the largest dimension from the most down that gets a yes, or 0; zero past L.
pub fn dimensions(first: &[usize; MOST_OUTPUT], sizes: Sizes) -> [u32; MOST_OUTPUT]
    ensures { Entries most_output sizes.bits (dimension_of (says first.now) sizes.k) result }
{
    table::<Resolution, MOST_OUTPUT>(first, sizes)
}

// What an entry lacks of the most that it can be. `as`, here and above: the number fits, so there is no failure for a `try_from` to tell.
pub fn gap(most: usize, entry: u32) -> u32
    requires { (entry ≤ most) × (most ≤ most_bits) }
    ensures { result ≡ most - entry }
{
    most as u32 - entry
}

// The sum of the gaps of a table's entries.
pub fn gap_sum<A: Axis, const N: usize>(table: &[u32; N], sizes: Sizes) -> u32
    requires room { A.count sizes ≤ N }
    requires possible { (i : ℕ) → i < A.count sizes → get_or table.now i 0 ≤ A.most sizes (i + 1) }
    ensures { result ≡ total (A.count sizes) (λ n. A.most sizes n - get_or table.now (n - 1) 0) }
{
    let mut sum: u32 = 0;
    for (i, entry) in table[..A::entries(sizes)].iter().enumerate() {
        let lack = gap(A::most(sizes, i + 1), *entry);
        sum += lack;
    }
    sum
}
