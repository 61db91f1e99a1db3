// What refuses a generator with a pair (t, l).
ghost use Rattle.std.specs.Prelude.{◌≡◌};
ghost use Rattle.document.specs.Answer.{refusal_of};
ghost use Rattle.document.specs.Refusals.{lowest, asked_cases};

use crate::refusals::pair_refusal;
use crate::sizes::size;
use document::{Dimension, Fields, Refusal, Resolution};
use fields::field_refusal;

// The fields, then t and l.
pub fn asked_refusal(g: Fields, t: Dimension, l: Resolution) -> Result<(), Refusal>
    ensures { refusal_of result ≡ lowest (asked_cases g t.0 l.0) }
{
    field_refusal(g)?;
    pair_refusal(size(g), usize::from(g.bits), t, l)
}
