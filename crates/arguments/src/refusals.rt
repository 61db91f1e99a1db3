// The refusals that several calls share, each from the numbers that it is about.
ghost use Rattle.std.specs.Prelude.{◌≡◌};
ghost use Rattle.document.specs.Answer.{refusal_of};
ghost use Rattle.document.specs.Refusals.{lowest, dimension_cases, pair_cases, state_cases, room_cases};

use document::{Dimension, ROW_WORDS, Refusal, Resolution};
use fields::outside;

// What refuses t, for k state bits.
#[tactic(auto, unfolding(document::specs::Refusals::lowest))]
pub fn dimension_refusal(k: usize, t: Dimension) -> Result<(), Refusal>
    ensures { refusal_of result ≡ lowest (dimension_cases k t.0) }
{
    if outside(1, k, t.0) {
        return Err(Refusal::Dimension);
    }
    Ok(())
}

// k and bits and no `Sizes`: it promises an answer for any two numbers.
// What refuses t and l, for k state bits and outputs of `bits` bits.
#[tactic(auto, unfolding(document::specs::Refusals::lowest))]
pub fn pair_refusal(k: usize, bits: usize, t: Dimension, l: Resolution) -> Result<(), Refusal>
    ensures { refusal_of result ≡ lowest (pair_cases k bits t.0 l.0) }
{
    dimension_refusal(k, t)?;
    if outside(1, bits, l.0) {
        return Err(Refusal::Resolution);
    }
    Ok(())
}

// What refuses a start state, for k state bits.
#[tactic(auto, unfolding(document::specs::Refusals::lowest))]
pub fn state_refusal(k: usize, state: [u64; ROW_WORDS]) -> Result<(), Refusal>
    ensures { refusal_of result ≡ lowest (state_cases k state) }
{
    if states::late_bit(k, state) {
        return Err(Refusal::State);
    }
    Ok(())
}

// What refuses a buffer of `room` where `least` are needed.
#[tactic(auto, unfolding(document::specs::Refusals::lowest))]
pub fn room_refusal(least: usize, room: usize) -> Result<(), Refusal>
    ensures { refusal_of result ≡ lowest (room_cases least room) }
{
    if room < least {
        return Err(Refusal::Room);
    }
    Ok(())
}
