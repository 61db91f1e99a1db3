// The whole text of a report. `as u32`: the counts are known to be small, so there is no failure for a `try_from` to tell.
ghost use Rattle.std.specs.Prelude.{◌≡◌, ℕ, ◌+◌, ◌-◌, ◌*◌, ◌<◌, ◌≤◌, length, get_or};
ghost use Rattle.document.specs.Answer.{refusal_number};
ghost use Rattle.listing_text.specs.Text.{line_bytes, lines_to, row_line, refused_line, page_of, most_text};
ghost use Rattle.listing_text.specs.Listing.{Printable};
ghost use Rattle.listing_text.specs.Wrote.{Wrote, Added};

use crate::page::Page;
use document::{Dimension, MOST_BITS, MOST_OUTPUT, Refusal, Resolution};
use report::Report;
use tables::{Axis, Sizes, gap};

impl Page<'_> {
    // The lines of a table: the entry's number, the most that it can be, the entry, the gap.
    pub fn table<A: Axis, const N: usize>(&mut self, letter: u8, sizes: Sizes, table: &[u32; N])
        requires entries { A.count sizes ≤ N }
        requires possible { (i : ℕ) → i < A.count sizes → get_or table.now i 0 ≤ A.most sizes (i + 1) }
        requires room { self.old.end + A.count sizes * line_bytes ≤ length self.old.out.now }
        ensures { Added (A.count sizes * line_bytes) self.old (lines_to (A.count sizes) (λ n. row_line letter n (A.most sizes n) (get_or table.now (n - 1) 0) (A.most sizes n - get_or table.now (n - 1) 0))) self.new }
    {
        for (i, entry) in table[..A::entries(sizes)].iter().enumerate() {
            let most = A::most(sizes, i + 1);
            self.row(
                letter,
                (i + 1) as u32,
                most as u32,
                *entry,
                gap(most, *entry),
            );
        }
    }
}

// The report of a generator of these sizes, at the front of the buffer, and its length.
pub fn put_page(out: &mut [u8], sizes: Sizes, r: &Report) -> usize
    requires { Printable sizes.k sizes.bits r.now × (most_text ≤ length out.old) }
    ensures { Wrote most_text out.old 0 (page_of sizes.k sizes.bits (λ t. get_or r.now.resolutions (t - 1) 0) (λ l. get_or r.now.dimensions (l - 1) 0) r.now.resolution_sum r.now.dimension_sum r.now.me) out.new result }
{
    let mut page = Page { out, end: 0 };
    page.head(sizes.k as u32, sizes.bits as u32);
    page.table::<Dimension, MOST_BITS>(b't', sizes, &r.resolutions);
    page.table::<Resolution, MOST_OUTPUT>(b'l', sizes, &r.dimensions);
    page.sums(r.resolution_sum, r.dimension_sum);
    page.me(r.me);
    page.end
}

// The line of a refusal, at the front of the buffer, and its length.
#[tactic(auto, using(crate::proofs::Text::number_small))]
pub fn put_refused(out: &mut [u8], refusal: Refusal) -> usize
    requires { line_bytes ≤ length out.old }
    ensures { Wrote line_bytes out.old 0 (refused_line (refusal_number refusal)) out.new result }
{
    let mut page = Page { out, end: 0 };
    page.refused(u32::from(refusal));
    page.end
}
