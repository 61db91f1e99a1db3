// Output bits as rows of state bits, one from another: the first rows from the output, the others from the move transposed.
#![tactic(auto)]

ghost use Rattle.std.specs.Prelude.{◌<◌};
ghost use Rattle.digits.specs.Def.{Clear, bits_of};
ghost use Rattle.rows.specs.Post.{FirstRow, BackRow};

use document::ROW_WORDS;
use running::{Prepared, Runs};

pub mod gfsr;
pub mod tausworthe;
pub mod twister;

// What gives its output bits as rows.
pub trait Rows: Runs {
    // The row of bit j of an output.
    fn first_row(self, j: usize) -> [u64; ROW_WORDS]
        requires { j < (Self.machine self).width }
        ensures { FirstRow (Self.machine self) j result };

    // The row before a move: its sum over a state is that of the row over the state moved.
    fn backed(self, row: [u64; ROW_WORDS]) -> [u64; ROW_WORDS]
        requires { Clear (Self.machine self).size (bits_of row) }
        ensures { BackRow (Self.machine self) row result };
}

// A match for each method, as for `Runs`.
impl Rows for Prepared {
    fn first_row(self, j: usize) -> [u64; ROW_WORDS] {
        match self {
            Prepared::Tausworthe(t) => t.first_row(j),
            Prepared::Gfsr(t) => t.first_row(j),
            Prepared::Twister(t) => t.first_row(j),
        }
    }

    fn backed(self, row: [u64; ROW_WORDS]) -> [u64; ROW_WORDS] {
        match self {
            Prepared::Tausworthe(t) => t.backed(row),
            Prepared::Gfsr(t) => t.backed(row),
            Prepared::Twister(t) => t.backed(row),
        }
    }
}
