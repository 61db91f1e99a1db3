// A report made from the first dependent bits.
ghost use Rattle.report.specs.Promises.{MadeOf};

use crate::reply::Report;
use document::{Dimension, MOST_BITS, MOST_OUTPUT, Resolution};
use tables::{Sizes, gap_sum};

// The report of a generator of these sizes, where first[l - 1] is the first dependent bit at the resolution l.
pub fn of_first(first: &[usize; MOST_OUTPUT], sizes: Sizes) -> Report
    ensures { MadeOf first.now sizes.k sizes.bits result }
{
    let resolutions = tables::resolutions(first, sizes);
    let dimensions = tables::dimensions(first, sizes);
    let resolution_sum = gap_sum::<Dimension, MOST_BITS>(&resolutions, sizes);
    let dimension_sum = gap_sum::<Resolution, MOST_OUTPUT>(&dimensions, sizes);
    Report {
        refusal: 0,
        resolutions,
        dimensions,
        resolution_sum,
        dimension_sum,
        me: resolution_sum == 0,
    }
}
