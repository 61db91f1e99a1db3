// How large a generator is, and the most that its tables can hold.
ghost use Rattle.std.specs.Prelude.{◌≤◌};
ghost use Rattle.document.specs.Limits.{most_bits, most_output};

use document::{Dimension, Resolution};

// A generator of k state bits, with outputs of `bits` bits.
#[derive(Clone, Copy)]
pub struct Sizes {
    pub k: usize,
    pub bits: usize,
    pub ghost few: { k ≤ most_bits },
    pub ghost narrow: { bits ≤ most_output },
}

impl Sizes {
    ghost use Rattle.std.specs.Prelude.{◌≡◌, ◌/◌, min};

    // The most that a resolution can be at the dimension t.
    pub fn most_resolution(self, t: Dimension) -> Resolution
        requires { 1 ≤ t.0 }
        ensures { result.0 ≡ min self.bits (self.k / t.0) }
    {
        Resolution(self.bits.min(self.k / t.0))
    }

    // The most that a dimension can be at the resolution l. Two functions, for the two sorts of count; `Axis::most` is the one form of both.
    pub fn most_dimension(self, l: Resolution) -> Dimension
        requires { 1 ≤ l.0 }
        ensures { result.0 ≡ self.k / l.0 }
    {
        Dimension(self.k / l.0)
    }
}
