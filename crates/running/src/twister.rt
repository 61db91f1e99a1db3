// Kinds 3 and 4. The state is r words, the newest first, without the last p bits of the last.
ghost use Rattle.std.specs.Prelude.{◌≡◌};
ghost use Rattle.digits.specs.Def.{digit, bits_of};
ghost use Rattle.kinds.specs.Generator.{next4, temper4, word};
ghost use Rattle.states.specs.Post.{Holds};
ghost use Rattle.running.specs.Prepared.{machine4};

use crate::{Runs, Twister, number};
use document::ROW_WORDS;
use states::words;

impl Twister {
    // The new word: the word m before the last, plus the twist of the last two joined.
    pub fn next(self, s: [u64; ROW_WORDS]) -> u64
        ensures { Holds self.w (next4 self.r self.m self.w self.p (digit self.a) (bits_of s)) result }
    {
        let r = self.r;
        let w = self.w;
        let x = states::word_at(&s, (r - 1) * w, w);
        let y = states::word_at(&s, (r - 2) * w, w);
        let z = states::word_at(&s, (r - self.m - 1) * w, w);
        z ^ words::twisted(w, self.a, words::joined(w, w - self.p, x, y))
    }

    // The first word tempered.
    pub fn tempered(self, s: [u64; ROW_WORDS]) -> u64
        ensures { Holds self.w (temper4 self.w self.u self.s (digit self.b) self.t (digit self.c) self.v (word self.w 0 (bits_of s))) result }
    {
        let w = self.w;
        let x = words::add_right(w, self.u, states::word_at(&s, 0, w));
        let y = words::add_left(w, self.s, self.b, x);
        words::add_right(w, self.v, words::add_left(w, self.t, self.c, y))
    }
}

#[tactic(auto, unfolding(kinds::specs::Generator::mersenne))]
impl Runs for Twister {
    ghost machine = { machine4 };

    fn size(self) -> usize {
        self.r * self.w - self.p
    }

    fn bits(self) -> usize {
        self.bits
    }

    fn moved(self, s: [u64; ROW_WORDS]) -> [u64; ROW_WORDS] {
        states::shifted_up(s, self.w, self.next(s))
    }

    // The output: the leading bits of the first word tempered.
    fn output(self, s: [u64; ROW_WORDS]) -> u32 {
        number(self.tempered(s), self.bits)
    }
}
