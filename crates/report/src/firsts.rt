// The first dependent output bit at each resolution.
ghost use Rattle.std.specs.Prelude.{◌≤◌, length};
ghost use Rattle.document.specs.Limits.{work_words};
ghost use Rattle.report.specs.Firsts.{FirstBits};

use document::MOST_OUTPUT;
use filling::OutputBits;
use running::{Prepared, Runs};

// Entry l - 1: the number of the first output bit, at the resolution l, that is a sum of earlier ones; there is one among the first k + 1.
// The buffer is a slice of any length, as C lends it; the call tests it once.
pub fn first_bits(p: Prepared, work: &mut [u64]) -> [usize; MOST_OUTPUT]
    requires { work_words ≤ length work.old }
    ensures { FirstBits p work.old result work.new }
{
    let mut first = [0; MOST_OUTPUT];
    let n = p.size() + 1;
    let bits = p.bits();
    for (i, entry) in first[..bits].iter_mut().enumerate() {
        let asked = OutputBits {
            generator: p,
            l: i + 1,
        };
        *entry = asked.first_dependent(work, n);
    }
    first
}
