// What the programs read on standard input: records of one length, in which a description stands in 65 bytes behind its own length.
#![tactic(auto)]

ghost use Rattle.std.specs.Prelude.{◌≡◌, ◌+◌, ◌-◌, ◌<◌, ◌≤◌, IfSome, min, length, get_or, take, drop};
ghost use Rattle.std.specs.Io.KnownBytes.{Consumes};
ghost use Rattle.std.specs.Iterator.{at_most};

use std::io::Read;

// No more records are read.
const MOST_RECORDS: usize = 64;

// The most bytes that a description has.
const DESCRIPTION_BYTES: usize = 65;

// The records that are left in the input, of N bytes each; they end at a short one.
#[derive(Drop)]
pub struct Records<R, const N: usize> {
    input: R,
    left: usize,
}

impl<R: Read + Drop, const N: usize> Records<R, N> {
    pub fn new(input: R) -> Records<R, N>
        ensures input { result.input ≡ input }
        ensures left { result.left ≡ MOST_RECORDS }
    {
        Records {
            input,
            left: MOST_RECORDS,
        }
    }
}

impl<R: Read + Drop, const N: usize> Iterator for Records<R, N> {
    type Item = [u8; N];

    // A record is what stands next in the input, where that is known, and one fewer is left.
    ghost next_gives = { λ s r t. (t.left ≡ s.left - 1) × IfSome r (λ bytes. (0 < s.left) × Consumes (R.remaining s.input) (R.remaining t.input) bytes) };

    ghost remaining = { λ s. at_most s.left };

    fn next(&mut self) -> Option<[u8; N]> {
        if self.left == 0 {
            return None;
        }
        self.left -= 1;
        let mut record = [0u8; N];
        self.input.read_exact(&mut record).ok()?;
        Some(record)
    }

    fn size_hint(&self) -> (usize, Option<usize>) {
        (0, Some(self.left))
    }
}

// The description in a record.
pub fn description(entry: &[u8]) -> &[u8]
    requires { 1 + DESCRIPTION_BYTES ≤ length entry.now }
    ensures { result.now ≡ take (min (get_or entry.now 0 0) DESCRIPTION_BYTES) (drop 1 entry.now) }
{
    let length = usize::from(entry[0]).min(DESCRIPTION_BYTES);
    &entry[1..][..length]
}
