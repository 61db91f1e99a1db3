// The coefficients a_1, a_2, .. of kinds 1 and 2.
ghost use Rattle.std.specs.Prelude.{◌≡◌, not, ◌&&◌, ◌-◌, ◌*◌, ◌/◌, ◌%◌, ◌<◌, ltb, get_or};
ghost use Rattle.digits.specs.Def.{digit};
ghost use Rattle.document.specs.Limits.{coefficient_bytes};
ghost use Rattle.document.specs.Generator.{coefficient};
ghost use Rattle.document.specs.Refusals.{any, coefficient_past};

use document::{COEFFICIENT_BYTES, Fields};

// a_(i+1) in the bytes of all; they are lent, since a search asks for each in turn.
fn bit_at(bytes: &[u8; COEFFICIENT_BYTES], i: usize) -> bool
    requires { i < 8 * coefficient_bytes }
    ensures { result ≡ digit (get_or bytes.now (i / 8) 0) (7 - i % 8) }
{
    (bytes[i / 8] >> (7 - i % 8)) % 2 == 1
}

// a_(i+1)
#[tactic(auto, unfolding(document::specs::Generator::coefficient))]
pub fn coefficient(g: Fields, i: usize) -> bool
    requires { i < 8 * coefficient_bytes }
    ensures { result ≡ coefficient g i }
{
    bit_at(&g.coefficients, i)
}

// Is one past a_n set?
fn set_past(bytes: &[u8; COEFFICIENT_BYTES], n: usize) -> bool
    ensures { result ≡ any (8 * coefficient_bytes) (λ i. not (ltb i n) && digit (get_or bytes.now (i / 8) 0) (7 - i % 8)) }
{
    (n..8 * COEFFICIENT_BYTES).any(|i| bit_at(bytes, i))
}

// Is a coefficient past a_n set?
#[tactic(auto, unfolding(document::specs::Refusals::coefficient_past, document::specs::Generator::coefficient))]
pub fn coefficient_past(g: Fields, n: usize) -> bool
    ensures { result ≡ coefficient_past g n }
{
    set_past(&g.coefficients, n)
}
