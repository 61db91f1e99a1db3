// Kind 1. The state is x_n, .., x_(n+k-1), and the mask has the taps: the bits that x_(n+k) sums, and the bit k.
ghost use Rattle.std.specs.Prelude.{◌≡◌, ◌≤◌};
ghost use Rattle.digits.specs.Def.{bits_of, number_of};
ghost use Rattle.running.specs.Ranges.{Mask};
ghost use Rattle.running.specs.Prepared.{Stepped, machine1};

use crate::{Runs, Tausworthe, number};
use document::ROW_WORDS;

// k and the mask go beside one another, not as a `Tausworthe`: that also holds that the output has at most 32 bits, so it would ask more.
// One step. The parity is the new bit plus the bit that moves down to k - 1, so that flipping leaves the new bit there.
pub fn stepped(k: usize, mask: [u64; ROW_WORDS], s: [u64; ROW_WORDS]) -> [u64; ROW_WORDS]
    requires { Mask k mask }
    ensures { Stepped k mask 1 s result }
{
    let r = states::lowered(s, 1);
    if states::parity(mask, s) {
        states::flipped(r, k - 1)
    } else {
        r
    }
}

impl Tausworthe {
    // The output where the state has its bits: the first L of them.
    fn first_bits(self, s: [u64; ROW_WORDS]) -> u32
        requires { (1 ≤ self.bits) × (self.bits ≤ self.k) }
        ensures { result ≡ number_of self.bits ((machine1 self).out (bits_of s)) }
    {
        number(states::word_at(&s, 0, self.bits), self.bits)
    }

    // The output where the recurrence goes on: the first bit of each of L states in a row. `as`: it has no more than 32 bits.
    fn stepped_bits(self, s: [u64; ROW_WORDS]) -> u32
        ensures { result ≡ number_of self.bits ((machine1 self).out (bits_of s)) }
    {
        let mut r = 0;
        let mut t = s;
        for _ in 0..self.bits {
            r = r * 2 + t[0] % 2;
            t = stepped(self.k, self.mask, t);
        }
        r as u32
    }
}

#[tactic(auto, unfolding(kinds::specs::Generator::tausworthe))]
impl Runs for Tausworthe {
    ghost machine = { machine1 };

    fn size(self) -> usize {
        self.k
    }

    fn bits(self) -> usize {
        self.bits
    }

    // A move is ν steps.
    fn moved(self, s: [u64; ROW_WORDS]) -> [u64; ROW_WORDS] {
        let mut t = s;
        for _ in 0..self.nu {
            // In two steps: in one, the checker says that it does not cover the array both lent to the call and laid by it here.
            let next = stepped(self.k, self.mask, t);
            t = next;
        }
        t
    }

    // The output: L bits from x_n on.
    fn output(self, s: [u64; ROW_WORDS]) -> u32 {
        if (1..=self.k).contains(&self.bits) {
            self.first_bits(s)
        } else {
            self.stepped_bits(s)
        }
    }
}
