// Kind 1. A step transposed moves a row up by one and adds the taps if its bit k - 1 leaves; the tap k takes that bit away.
ghost use Rattle.digits.specs.Def.{Clear, bits_of};
ghost use Rattle.running.specs.Ranges.{Mask};
ghost use Rattle.rows.specs.Post.{StepsBack};

use crate::Rows;
use document::ROW_WORDS;
use running::Tausworthe;

// k and the mask beside one another, as in `stepped` of running.
// The row before one step.
pub fn step_backed(k: usize, mask: [u64; ROW_WORDS], row: [u64; ROW_WORDS]) -> [u64; ROW_WORDS]
    requires { Mask k mask × Clear k (bits_of row) }
    ensures { StepsBack k mask 1 row result }
{
    let r = states::shifted_up(row, 1, 0);
    if states::bit_at(&row, k - 1) {
        states::added(r, mask)
    } else {
        r
    }
}

// The row before n steps.
pub fn steps_backed(
    k: usize,
    mask: [u64; ROW_WORDS],
    n: usize,
    row: [u64; ROW_WORDS],
) -> [u64; ROW_WORDS]
    requires { Mask k mask × Clear k (bits_of row) }
    ensures { StepsBack k mask n row result }
{
    let mut r = row;
    for _ in 0..n {
        // In two steps: in one, the checker says that it does not cover the array both lent to the call and laid by it here.
        let before = step_backed(k, mask, r);
        r = before;
    }
    r
}

#[tactic(auto, unfolding(kinds::specs::Generator::tausworthe))]
impl Rows for Tausworthe {
    // The first bit of the state j steps later.
    fn first_row(self, j: usize) -> [u64; ROW_WORDS] {
        steps_backed(self.k, self.mask, j, states::flipped([0; ROW_WORDS], 0))
    }

    // ν steps.
    fn backed(self, row: [u64; ROW_WORDS]) -> [u64; ROW_WORDS] {
        steps_backed(self.k, self.mask, self.nu, row)
    }
}
