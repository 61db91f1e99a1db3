// Generators run on states of eight words by value: a generator is prepared once, then moved and asked for its output.
#![tactic(auto)]

ghost use Rattle.std.specs.Prelude.{◌≡◌, ◌<◌, ◌≤◌, ◌^◌};
ghost use Rattle.digits.specs.Def.{Same, digit, bits_of, number_of};
ghost use Rattle.kinds.specs.Generator.{Machine};
ghost use Rattle.document.specs.Limits.{most_output};
ghost use Rattle.document.specs.Ranges.{Accepted};
ghost use Rattle.running.specs.Prepared.{PreparedFor, machine_of};

use document::{Fields, Kind, ROW_WORDS};

pub mod gfsr;
pub mod preparing;
mod ready;
pub mod tausworthe;
pub mod twister;

pub use ready::{Gfsr, Prepared, Tausworthe, Twister, TwisterNumbers};

// What runs: a machine, moved and asked on the state's words.
pub trait Runs {
    ghost machine: { Self → Machine };

    // The state bits, k.
    fn size(self) -> usize
        ensures { result ≡ (machine self).size };

    // The bits of an output, L.
    fn bits(self) -> usize
        ensures { result ≡ (machine self).width };

    // The next state.
    fn moved(self, s: [u64; ROW_WORDS]) -> [u64; ROW_WORDS]
        ensures { Same (machine self).size (bits_of result) ((machine self).move (bits_of s)) };

    // The output of a state: its L bits as a number, the first the most significant.
    fn output(self, s: [u64; ROW_WORDS]) -> u32
        ensures { result ≡ number_of (machine self).width ((machine self).out (bits_of s)) };
}

// A match for each method: no derive writes the impl of a trait of one's own.
impl Runs for Prepared {
    ghost machine = { machine_of };

    fn size(self) -> usize {
        match self {
            Prepared::Tausworthe(t) => t.size(),
            Prepared::Gfsr(t) => t.size(),
            Prepared::Twister(t) => t.size(),
        }
    }

    fn bits(self) -> usize {
        match self {
            Prepared::Tausworthe(t) => t.bits(),
            Prepared::Gfsr(t) => t.bits(),
            Prepared::Twister(t) => t.bits(),
        }
    }

    fn moved(self, s: [u64; ROW_WORDS]) -> [u64; ROW_WORDS] {
        match self {
            Prepared::Tausworthe(t) => t.moved(s),
            Prepared::Gfsr(t) => t.moved(s),
            Prepared::Twister(t) => t.moved(s),
        }
    }

    fn output(self, s: [u64; ROW_WORDS]) -> u32 {
        match self {
            Prepared::Tausworthe(t) => t.output(s),
            Prepared::Gfsr(t) => t.output(s),
            Prepared::Twister(t) => t.output(s),
        }
    }
}

// The first n bits of a word as a number, the first the most significant. `as`: it has no more than 32 bits.
fn number(x: u64, n: usize) -> u32
    requires { (x < 2 ^ 32) × (n ≤ most_output) }
    ensures { result ≡ number_of n (digit x) }
{
    states::words::mirrored(x, n) as u32
}

// The generator that a description's fields stand for, made ready.
pub fn prepare(g: Fields) -> Prepared
    requires { Accepted g }
    ensures { PreparedFor g result }
{
    match Kind::column(g.kind) {
        Kind::Tausworthe => Prepared::Tausworthe(preparing::of_tausworthe(g)),
        Kind::Gfsr => Prepared::Gfsr(preparing::of_gfsr(g)),
        Kind::Twisted => Prepared::Twister(preparing::of_twisted(g)),
        Kind::Mersenne => Prepared::Twister(preparing::of_twister(g)),
    }
}
