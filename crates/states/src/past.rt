// Whether a start state has bits that the generator has not.
ghost use Rattle.std.specs.Prelude.{◌≡◌};
ghost use Rattle.document.specs.Refusals.{late_bit};

use crate::bit_at;
use document::ROW_WORDS;

// Is a bit numbered k or more set?
pub fn late_bit(k: usize, state: [u64; ROW_WORDS]) -> bool
    ensures { result ≡ late_bit k state }
{
    (k..64 * ROW_WORDS).any(|i| bit_at(&state, i))
}
