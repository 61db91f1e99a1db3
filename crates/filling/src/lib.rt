// Rows of output bits, made one from another in a lent buffer, so that loops go over them by number.
// A row is named by the word where it begins, as in elimination.
#![tactic(auto)]

ghost use Rattle.std.specs.Prelude.{◌≡◌, ℕ, ◌+◌, ◌<◌, ◌≤◌, length, get_or};
ghost use Rattle.document.specs.Limits.{row_words};
ghost use Rattle.elimination.specs.Words.{Written};

use document::ROW_WORDS;
use elimination::Layout;

mod asked;
mod bits;

pub use bits::OutputBits;

// The words of a row, with the room for a set beside it.
pub const STRIDE: usize = 2 * ROW_WORDS;

// Rows that are added up without sets.
pub const LAYOUT: Layout = Layout {
    stride: STRIDE,
    width: ROW_WORDS,
    lead: ROW_WORDS,
};

// The words of the row at word `at`.
pub fn get_row(buf: &[u64], at: usize) -> [u64; ROW_WORDS]
    requires { at + row_words ≤ length buf.now }
    ensures { (k : ℕ) → k < row_words → get_or result k 0 ≡ get_or buf.now (at + k) 0 }
{
    let mut r = [0; ROW_WORDS];
    r.copy_from_slice(&buf[at..at + ROW_WORDS]);
    r
}

// Puts a row at word `at`.
pub fn put_row(buf: &mut [u64], at: usize, s: [u64; ROW_WORDS])
    requires { at + row_words ≤ length buf.old }
    ensures { Written buf.old at row_words (λ k. get_or s k 0) buf.new }
{
    buf[at..at + ROW_WORDS].copy_from_slice(&s);
}
