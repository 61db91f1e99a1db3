// The first row of the table that applies.
ghost use Rattle.std.specs.Prelude.{◌≡◌};
ghost use Rattle.document.specs.Answer.{refusal_of};
ghost use Rattle.document.specs.Refusals.{range_refusal, field_refusal};

use crate::own::bad_value;
use crate::ranges::{bad_bits, bad_shift, bad_size};
use document::{Fields, Kind, Refusal};

// What refuses fields, but for their kind.
#[tactic(auto, unfolding(document::specs::Refusals::range_refusal, document::specs::Refusals::lowest))]
pub fn range_refusal(g: Fields) -> Result<(), Refusal>
    ensures { refusal_of result ≡ range_refusal g }
{
    if bad_size(g) {
        return Err(Refusal::Size);
    }
    if bad_bits(g) {
        return Err(Refusal::Bits);
    }
    if bad_shift(g) {
        return Err(Refusal::Shift);
    }
    if bad_value(g) {
        return Err(Refusal::Value);
    }
    Ok(())
}

// What refuses fields: their kind, and then that.
#[tactic(auto, unfolding(document::specs::Refusals::field_refusal, document::specs::Refusals::lowest))]
pub fn field_refusal(g: Fields) -> Result<(), Refusal>
    ensures { refusal_of result ≡ field_refusal g }
{
    Kind::try_from(g.kind)?;
    range_refusal(g)
}
