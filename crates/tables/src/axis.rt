// The two tables are one with dimensions and resolutions exchanged: what each of them has entries for.
ghost use Rattle.std.specs.Prelude.{◌≡◌, ℕ, Bool, List, ◌/◌, ◌≤◌, min};
ghost use Rattle.document.specs.Limits.{most_bits};
ghost use Rattle.tables.specs.Tables.{says};
ghost use Rattle.tables.specs.declared.sizes.Sizes.{Sizes};

use crate::sizes::Sizes;
use crate::yes;
use document::{Dimension, MOST_OUTPUT, Resolution};

// What a table has entries for, numbered from 1: dimensions, each with the largest resolution, or resolutions, each with the largest dimension.
pub trait Axis {
    ghost count: { Sizes → ℕ };

    ghost most: { Sizes → ℕ → ℕ };

    ghost answer: { List ℕ → ℕ → ℕ → Bool };

    // How many entries there are.
    fn entries(sizes: Sizes) -> usize
        ensures value { result ≡ count sizes }
        ensures few { result ≤ most_bits };

    // The most that entry n can be.
    fn most(sizes: Sizes, n: usize) -> usize
        requires { 1 ≤ n }
        ensures value { result ≡ most sizes n }
        ensures few { result ≤ most_bits };

    // The question whether entry n can be m.
    fn yes(first: &[usize; MOST_OUTPUT], sizes: Sizes, n: usize, m: usize) -> bool
        requires { (1 ≤ n) × (n ≤ count sizes) × (1 ≤ m) × (m ≤ most sizes n) }
        ensures { result ≡ answer first.now n m };
}

impl Axis for Dimension {
    ghost count = { λ s. s.k };

    ghost most = { λ s t. min s.bits (s.k / t) };

    ghost answer = { λ first t l. says first t l };

    fn entries(sizes: Sizes) -> usize {
        sizes.k
    }

    fn most(sizes: Sizes, n: usize) -> usize {
        sizes.most_resolution(Dimension(n)).0
    }

    fn yes(first: &[usize; MOST_OUTPUT], _sizes: Sizes, n: usize, m: usize) -> bool {
        yes(first, Dimension(n), Resolution(m))
    }
}

impl Axis for Resolution {
    ghost count = { λ s. s.bits };

    ghost most = { λ s l. s.k / l };

    ghost answer = { λ first l t. says first t l };

    fn entries(sizes: Sizes) -> usize {
        sizes.bits
    }

    fn most(sizes: Sizes, n: usize) -> usize {
        sizes.most_dimension(Resolution(n)).0
    }

    fn yes(first: &[usize; MOST_OUTPUT], _sizes: Sizes, n: usize, m: usize) -> bool {
        yes(first, Dimension(m), Resolution(n))
    }
}
