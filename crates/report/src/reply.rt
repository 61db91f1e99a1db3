// The reply of a report.
ghost use Rattle.std.specs.Prelude.{◌≡◌};
ghost use Rattle.report.specs.Promises.{refused_with};

use document::{MOST_BITS, MOST_OUTPUT, Refusal};

// Entry t - 1 of `resolutions` is l_t, entry l - 1 of `dimensions` is t_l; the sums are those of their gaps.
// C gets this struct, so the refusal's number stays beside them.
#[repr(C)]
#[derive(Clone, Copy)]
pub struct Report {
    pub refusal: u32,
    pub resolutions: [u32; MOST_BITS],
    pub dimensions: [u32; MOST_OUTPUT],
    pub resolution_sum: u32,
    pub dimension_sum: u32,
    pub me: bool,
}

impl Report {
    ghost use Rattle.document.specs.Answer.{refusal_number};

    // A refusal: all other numbers are 0.
    pub(crate) fn refused(refusal: Refusal) -> Report
        ensures { result ≡ refused_with (refusal_number refusal) }
    {
        Report {
            refusal: u32::from(refusal),
            resolutions: [0; MOST_BITS],
            dimensions: [0; MOST_OUTPUT],
            resolution_sum: 0,
            dimension_sum: 0,
            me: false,
        }
    }
}
