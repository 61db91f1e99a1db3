// Kinds 3 and 4. A move transposed takes a row down by a word, and adds its first word where the new word came from.
ghost use Rattle.std.specs.Prelude.{◌<◌};
ghost use Rattle.digits.specs.Def.{digit};
ghost use Rattle.kinds.specs.Transpose.{first4};
ghost use Rattle.states.specs.Post.{Holds};

use crate::Rows;
use document::ROW_WORDS;
use running::Twister;
use states::words;

// The tempering transposed, of bit j alone.
pub fn first_word(p: Twister, j: usize) -> u64
    requires { j < p.w }
    ensures { Holds p.w (first4 p.w p.u p.s (digit p.b) p.t (digit p.c) p.v j) result }
{
    let w = p.w;
    let x = words::un_right(w, p.v, 1 << j);
    let y = words::un_left(w, p.t, p.c, x);
    words::un_right(w, p.u, words::un_left(w, p.s, p.b, y))
}

#[tactic(auto, unfolding(kinds::specs::Generator::mersenne))]
impl Rows for Twister {
    fn first_row(self, j: usize) -> [u64; ROW_WORDS] {
        states::placed([0; ROW_WORDS], 0, self.w, first_word(self, j))
    }

    fn backed(self, row: [u64; ROW_WORDS]) -> [u64; ROW_WORDS] {
        let r = self.r;
        let w = self.w;
        let dead = self.p;
        let n = w - dead;
        let y = states::word_at(&row, 0, w);
        let z = words::untwisted(w, self.a, y);
        let d = states::placed(states::lowered(row, w), (r - self.m - 1) * w, w, y);
        let e = states::placed(d, (r - 1) * w, n, words::low(z, n));
        states::placed(e, (r - 2) * w + n, dead, z >> n)
    }
}
