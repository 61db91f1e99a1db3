// Numbers in bytes, the high byte first.
// A number is named by where it stands, as the table of bodies has it.
ghost use Rattle.std.specs.Prelude.{◌≡◌, ◌+◌, ◌≤◌, length, take, drop};
ghost use Rattle.document.specs.Limits.{coefficient_bytes};
ghost use Rattle.document.specs.Description.{number};

use document::COEFFICIENT_BYTES;

// Two functions, for two bytes and for four: `from_be_bytes` belongs to no trait that one generic function could name.

// The number in the two bytes from `at` on.
#[tactic(auto, unfolding(document::specs::Description::number))]
pub fn number2(bytes: &[u8], at: usize) -> u16
    requires { at + 2 ≤ length bytes.now }
    ensures { result ≡ number bytes.now at 2 }
{
    u16::from_be_bytes([bytes[at], bytes[at + 1]])
}

// The number in the four bytes from `at` on.
#[tactic(auto, unfolding(document::specs::Description::number))]
pub fn number4(bytes: &[u8], at: usize) -> u32
    requires { at + 4 ≤ length bytes.now }
    ensures { result ≡ number bytes.now at 4 }
{
    u32::from_be_bytes([bytes[at], bytes[at + 1], bytes[at + 2], bytes[at + 3]])
}

// The coefficients, which are the last bytes of their kinds.
pub fn coefficients(bytes: &[u8]) -> [u8; COEFFICIENT_BYTES]
    requires { 5 + coefficient_bytes ≤ length bytes.now }
    ensures { result ≡ take coefficient_bytes (drop 5 bytes.now) }
{
    let mut r = [0; COEFFICIENT_BYTES];
    r.copy_from_slice(&bytes[5..5 + COEFFICIENT_BYTES]);
    r
}
