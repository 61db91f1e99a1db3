// The elimination behind a C boundary, for bench/ and tests. Each function tests its sizes; with
// bad ones it answers 2^64 - 1 and leaves memory as it was.
#![tactic(auto)]

ghost use Rattle.std.specs.Prelude.{◌≤◌, ◌↔◌, IsTrue, length};
ghost use Rattle.engine.specs.Answers.{LaidOut, Fits, Sized, Roomy, Eliminates, FirstSets, Bases};

use elimination::Layout;

// C has no Option: a number answers for bad sizes, and the number of the rows for no row found.
const BAD: usize = usize::MAX;

// The layout of these sizes, if they are those of one and `rows` rows of it fit n words.
fn fitting(n: usize, rows: usize, stride: usize, width: usize, lead: usize) -> Option<Layout>
    ensures { LaidOut stride width lead ((lead ≤ width) × Fits n rows stride width) result }
{
    if lead <= width && width <= stride && stride > 0 && rows <= n / stride {
        Some(Layout {
            stride,
            width,
            lead,
        })
    } else {
        None
    }
}

// The same, if the slots of `lead` words fit m too.
fn sized(
    n: usize,
    m: usize,
    rows: usize,
    stride: usize,
    width: usize,
    lead: usize,
) -> Option<Layout>
    ensures { LaidOut stride width lead (Sized n m rows stride width lead) result }
{
    if lead <= m / 64 {
        fitting(n, rows, stride, width, lead)
    } else {
        None
    }
}

// Is there room for a set of rows behind the `lead` words?
fn roomy(rows: usize, layout: Layout) -> bool
    ensures { IsTrue result ↔ Roomy rows layout.width layout.lead }
{
    rows.div_ceil(64) <= layout.width - layout.lead
}

// The number of the first row that is a sum of those before it; `rows` if there is none.
pub fn dayunglipo_engine_eliminate(
    buf: &mut [u64],
    rows: usize,
    stride: usize,
    width: usize,
    lead: usize,
    slots: &mut [usize],
) -> usize
    ensures { Eliminates buf.old rows stride width lead slots.old buf.new slots.new result }
{
    let Some(layout) = sized(buf.len(), slots.len(), rows, stride, width, lead) else {
        return BAD;
    };
    elimination::eliminate(buf, rows, layout, slots).unwrap_or(rows)
}

// The same, after the words from `lead` to `width` of each row are overwritten by its own set: the
// row that is found then has the set of the rows that add up to zero there.
pub fn dayunglipo_engine_first_set(
    buf: &mut [u64],
    rows: usize,
    stride: usize,
    width: usize,
    lead: usize,
    slots: &mut [usize],
) -> usize
    ensures { FirstSets buf.old rows stride width lead slots.old buf.new slots.new result }
{
    let Some(layout) = sized(buf.len(), slots.len(), rows, stride, width, lead) else {
        return BAD;
    };
    if !roomy(rows, layout) {
        return BAD;
    }
    elimination::set_tags(buf, rows, layout);
    elimination::eliminate(buf, rows, layout, slots).unwrap_or(rows)
}

// The rank of the first k bits of the rows, whose reduced row echelon form then stands at the
// front, `width` words to a row, with zeros behind it.
pub fn dayunglipo_engine_basis(
    buf: &mut [u64],
    rows: usize,
    stride: usize,
    width: usize,
    k: usize,
) -> usize
    ensures { Bases buf.old rows stride width k buf.new result }
{
    let Some(layout) = fitting(buf.len(), rows, stride, width, 0) else {
        return BAD;
    };
    if !roomy(k, layout) {
        return BAD;
    }
    let rank = reduction::reduce(buf, rows, layout, k);
    reduction::pack(buf, rank, layout, rows * stride);
    rank
}
