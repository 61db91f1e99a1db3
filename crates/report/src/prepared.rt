// The report of a prepared generator.
ghost use Rattle.std.specs.Prelude.{◌≡◌, ◌≤◌, length};
ghost use Rattle.document.specs.Limits.{work_words};
ghost use Rattle.running.specs.Prepared.{machine_of};
ghost use Rattle.report.specs.Prepared.{ReportMade};

use crate::firsts::first_bits;
use crate::making::of_first;
use crate::reply::Report;
use document::WORK_WORDS;
use elimination::clear_words;
use running::{Prepared, Runs};
use tables::Sizes;

// How large a prepared generator is.
#[tactic(auto, using(running::specs::Theorems::ready_most, running::specs::Theorems::ready_width))]
pub fn sizes(p: Prepared) -> Sizes
    ensures state { result.k ≡ (machine_of p).size }
    ensures output { result.bits ≡ (machine_of p).width }
{
    Sizes {
        k: p.size(),
        bits: p.bits(),
    }
}

// The report of a prepared generator, made in a lent work buffer that is cleared at the end. The buffer is a slice of any length, as C lends
// it; the call tests it once.
pub fn report_of(p: Prepared, work: &mut [u64]) -> Report
    requires { work_words ≤ length work.old }
    ensures { ReportMade p work.old result work.new }
{
    let first = first_bits(p, work);
    clear_words(work, 0, WORK_WORDS);
    of_first(&first, sizes(p))
}
