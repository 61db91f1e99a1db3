// Kind 2. The state is r words, the newest first, and the mask has the coefficient of the word i at bit i.
ghost use Rattle.std.specs.Prelude.{◌≡◌, ◌*◌, ◌≤◌};
ghost use Rattle.digits.specs.Def.{bits_of};
ghost use Rattle.kinds.specs.Generator.{next2};
ghost use Rattle.document.specs.Limits.{most_bits, most_output};
ghost use Rattle.states.specs.Post.{Holds};
ghost use Rattle.running.specs.Prepared.{machine2};

use crate::{Gfsr, Runs, number};
use document::ROW_WORDS;

// The new word: the sum of those words that have their coefficient.
pub fn next(r: usize, w: usize, mask: [u64; ROW_WORDS], s: [u64; ROW_WORDS]) -> u64
    requires { (1 ≤ w) × (w ≤ most_output) × (r * w ≤ most_bits) }
    ensures { Holds w (next2 r w (bits_of mask) (bits_of s)) result }
{
    let mut x = 0;
    // By number: no list is gone over, i says where a word begins and which bit of the mask is its own.
    for i in 0..r {
        if states::bit_at(&mask, i) {
            x ^= states::word_at(&s, i * w, w);
        }
    }
    x
}

#[tactic(auto, unfolding(kinds::specs::Generator::gfsr))]
impl Runs for Gfsr {
    ghost machine = { machine2 };

    fn size(self) -> usize {
        self.r * self.w
    }

    fn bits(self) -> usize {
        self.bits
    }

    fn moved(self, s: [u64; ROW_WORDS]) -> [u64; ROW_WORDS] {
        states::shifted_up(s, self.w, next(self.r, self.w, self.mask, s))
    }

    // The output: the leading bits of the first word.
    fn output(self, s: [u64; ROW_WORDS]) -> u32 {
        number(states::word_at(&s, 0, self.bits), self.bits)
    }
}
