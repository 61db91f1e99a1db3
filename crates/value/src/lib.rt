// Value: the f64 Y / 2^L, by one exact conversion and one exact division.
#![tactic(auto)]

ghost use Rattle.std.specs.Prelude.{◌≡◌, ◌^◌, ◌≤◌, ◌<◌, IfOk};
ghost use Rattle.std.specs.Float.{binary64};
ghost use Rattle.std.specs.Float.Ieee.{of_bits};
ghost use Rattle.document.specs.Limits.{most_output};
ghost use Rattle.document.specs.Refusals.{value_refusal};
ghost use Rattle.document.specs.Value.{value_bits};
ghost use Rattle.document.specs.Answer.{refusal_of};
ghost use Rattle.value.specs.Promises.{ValuedAs, valued_of};

use document::{MOST_OUTPUT, Refusal};
use fields::outside;

// The answer: 0 and the value, or a refusal and zero. C gets this struct, so the number stays beside the value.
#[repr(C)]
#[derive(Clone, Copy)]
pub struct Valued {
    pub refusal: u32,
    pub value: f64,
}

impl From<Result<f64, Refusal>> for Valued {
    ghost from_gives = { λ answer valued. valued ≡ valued_of answer };

    fn from(answer: Result<f64, Refusal>) -> Valued {
        match answer {
            Ok(value) => Valued { refusal: 0, value },
            Err(refusal) => Valued {
                refusal: u32::from(refusal),
                value: 0.0,
            },
        }
    }
}

fn power(l: u32) -> u64
    requires { l ≤ most_output }
    ensures { result ≡ 2 ^ l }
{
    1u64 << l
}

// y / 2^l: both conversions and the division are exact. `as`: an `f64` has no `From<u64>`.
fn fraction(y: u64, l: u32) -> f64
    requires { (y < 2 ^ most_output) × (l ≤ most_output) }
    ensures { result ≡ of_bits binary64 (value_bits y l) }
{
    let p = power(l);
    (y as f64) / (p as f64)
}

// What refuses L, and then Y. `as`: a `usize` has no `From<u32>`.
#[tactic(auto, unfolding(document::specs::Refusals::value_refusal, document::specs::Refusals::outside, document::specs::Refusals::lowest))]
fn value_refusal(y: u64, l: u32) -> Result<(), Refusal>
    ensures { refusal_of result ≡ value_refusal y l }
{
    if outside(1, MOST_OUTPUT, l as usize) {
        return Err(Refusal::Bits);
    }
    if power(l) <= y {
        return Err(Refusal::Value);
    }
    Ok(())
}

// The value of an output of L bits, or why there is none.
#[tactic(auto, using(crate::specs::Theorems::value_accepted))]
fn checked(y: u64, l: u32) -> Result<f64, Refusal>
    ensures number { refusal_of result ≡ value_refusal y l }
    ensures accepted { IfOk result (λ x. x ≡ of_bits binary64 (value_bits y l)) }
{
    value_refusal(y, l)?;
    Ok(fraction(y, l))
}

// The same, as the reply that C gets.
pub fn value(y: u64, l: u32) -> Valued
    ensures { ValuedAs y l result }
{
    Valued::from(checked(y, l))
}
