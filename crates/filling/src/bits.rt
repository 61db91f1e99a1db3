// The output bits of a generator at one resolution, and their rows in a lent buffer. Loops go by the number of a row, since a row is made
// from the one l rows before it in the same buffer. That the rows fit the buffer is asked at each call, as in elimination.
ghost use Rattle.std.specs.Prelude.{◌≤◌};
ghost use Rattle.running.specs.Prepared.{machine_of};

use crate::{LAYOUT, STRIDE, get_row, put_row};
use document::ROW_WORDS;
use rows::Rows;
use running::Prepared;

// What names an output bit, but for its number: the generator, and the resolution l, as many as l bits of each output.
#[derive(Clone, Copy)]
pub struct OutputBits {
    pub generator: Prepared,
    pub l: usize,
    pub ghost some: { 1 ≤ l },
    pub ghost within: { l ≤ (machine_of generator).width },
}

impl OutputBits {
    ghost use Rattle.std.specs.Prelude.{◌+◌, ◌*◌, length};
    ghost use Rattle.digits.specs.Def.{bits_of};
    ghost use Rattle.document.specs.Limits.{row_words};
    ghost use Rattle.rows.specs.Theorems.{RowOf};
    ghost use Rattle.filling.specs.Rows.{stride, StandsAll, Filled, Laid, FirstDependent};

    // The row of output bit i: of output 0, or from the row of one output before, which stands `off` words into its place.
    pub fn next_row(self, buf: &[u64], i: usize, off: usize) -> [u64; ROW_WORDS]
        requires in_room { (off ≤ row_words) × (i * stride ≤ length buf.now) }
        requires standing { StandsAll (machine_of self.generator) self.l i off buf.now }
        ensures { RowOf (machine_of self.generator) self.l i (bits_of result) }
    {
        if i < self.l {
            return self.generator.first_row(i);
        }
        let before = get_row(buf, (i - self.l) * STRIDE + off);
        self.generator.backed(before)
    }

    // The rows of the first n output bits, each at the front of its place.
    pub fn fill(self, buf: &mut [u64], n: usize)
        requires { n * stride ≤ length buf.old }
        ensures { Filled (machine_of self.generator) self.l n buf.old buf.new }
    {
        for i in 0..n {
            let row = self.next_row(buf, i, 0);
            put_row(buf, i * STRIDE, row);
        }
    }

    // Makes row i, and lays it twice into its place: in the second half as it is, for the rows after it, and in the first half
    // to be taken.
    fn lay_row(self, buf: &mut [u64], i: usize)
        requires in_room { i * stride + stride ≤ length buf.old }
        requires standing { StandsAll (machine_of self.generator) self.l i row_words buf.old }
        ensures { Laid (machine_of self.generator) self.l i buf.old buf.new }
    {
        let row = self.next_row(buf, i, ROW_WORDS);
        put_row(buf, i * STRIDE, row);
        put_row(buf, i * STRIDE + ROW_WORDS, row);
    }

    // The number of the first row, of the first n, that is a sum of those before it; n if there is none. A number and no Option: it
    // is how many rows come before, of which `FirstDependent` and the theorem `answers_all` speak. Each row is made just before it is
    // taken, so none is made in vain.
    pub fn first_dependent(self, buf: &mut [u64], n: usize) -> usize
        requires { n * stride ≤ length buf.old }
        ensures { FirstDependent (machine_of self.generator) self.l n buf.old result buf.new }
    {
        let mut slots = [0; 64 * ROW_WORDS];
        for i in 0..n {
            self.lay_row(buf, i);
            if !elimination::take_row(buf, i, LAYOUT, &mut slots) {
                return i;
            }
        }
        n
    }
}
