// Kind 2. A move transposed takes a row down by a word, and adds its first word at each word that has its coefficient.
ghost use Rattle.std.specs.Prelude.{◌≡◌, ◌&&◌, ℕ, ◌+◌, ◌<◌, ◌≤◌, ◌^◌};
ghost use Rattle.theory.specs.Def.{◌⊕◌};
ghost use Rattle.digits.specs.Def.{digit, bits_of};
ghost use Rattle.kinds.specs.Transpose.{place};
ghost use Rattle.states.specs.Post.{state_bits};

use crate::Rows;
use document::ROW_WORDS;
use running::Gfsr;

// The row with the n bits of y added at position pos, if they are chosen. A turn of `backed` is this, written out.
pub fn placed_if(
    chosen: bool,
    row: [u64; ROW_WORDS],
    pos: usize,
    n: usize,
    y: u64,
) -> [u64; ROW_WORDS]
    requires { (pos + n < state_bits) × (n ≤ 32) × (y < 2 ^ n) }
    ensures { (i : ℕ) → bits_of result i ≡ bits_of row i ⊕ chosen && place pos n (digit y) i }
{
    if chosen {
        states::placed(row, pos, n, y)
    } else {
        row
    }
}

#[tactic(auto, unfolding(kinds::specs::Generator::gfsr))]
impl Rows for Gfsr {
    // Bit j of the state.
    fn first_row(self, j: usize) -> [u64; ROW_WORDS] {
        states::flipped([0; ROW_WORDS], j)
    }

    fn backed(self, row: [u64; ROW_WORDS]) -> [u64; ROW_WORDS] {
        let y = states::word_at(&row, 0, self.w);
        let mut d = states::lowered(row, self.w);
        // By number, as in `next` of running: no list is gone over.
        for i in 0..self.r {
            if states::bit_at(&self.mask, i) {
                // In two steps: in one, the checker says that it does not cover the array both lent to the call and laid by it here.
                let next = states::placed(d, i * self.w, self.w, y);
                d = next;
            }
        }
        d
    }
}
