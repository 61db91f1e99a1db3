// The call.
ghost use Rattle.std.specs.Prelude.{◌≡◌};
ghost use Rattle.document.specs.Answer.{refusal_of};
ghost use Rattle.document.specs.Refusals.{report_refusal};
ghost use Rattle.report.specs.Promises.{ReportedAs};

use crate::prepared::report_of;
use crate::reply::Report;
use arguments::room_refusal;
use document::{Fields, Refusal, WORK_WORDS};
use fields::field_refusal;
use running::prepare;

// What refuses a report: the fields, then the room.
pub fn report_refusal(g: Fields, room: usize) -> Result<(), Refusal>
    ensures { refusal_of result ≡ report_refusal g room }
{
    field_refusal(g)?;
    room_refusal(WORK_WORDS, room)
}

// The report of a generator, made in a lent work buffer that is cleared at the end; or a refusal, and the buffer is left.
pub fn report(g: Fields, work: &mut [u64]) -> Report
    ensures { ReportedAs g work.old result work.new }
{
    match report_refusal(g, work.len()) {
        Ok(()) => report_of(prepare(g), work),
        Err(refusal) => Report::refused(refusal),
    }
}
