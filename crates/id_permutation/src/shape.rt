//! The rectangle over which the numbers of a size are permuted. It is the same for each seed.

ghost use Rattle.std.specs.Prelude.{◌≡◌, ◌+◌, ◌*◌, ◌<◌, ◌≤◌, ◌^◌};
ghost use Rattle.id_permutation.specs.Sides.{AreSides};
ghost use Rattle.id_permutation.specs.Tables.{table_entries};

use crate::network::Network;
use fixed_divisors::FixedDivisor;
use std::marker::Model;

/// A size from 1 to 2^40, with the divisors that the rounds of all its permutations use. The divisors are worked out once for all
/// orders of this size. A contract sees the size.
#[derive(Clone, Copy)]
pub struct Shape {
    size: u64,
    height: FixedDivisor,
    width: FixedDivisor,
}

impl Model for Shape {
    ghost use Rattle.std.specs.Prelude.{ℕ};
    ghost use Rattle.id_permutation.specs.Placement.{height_of, width_of};
    ghost use Rattle.id_permutation.specs.Sides.{AreSides};
    ghost use Rattle.std.proofs.Common.{ap, sym, ◌∙◌};

    ghost Value = { ℕ };

    ghost view = { λ s. s.size };

    ghost invariant = { λ s. AreSides s.size s.height s.width };

    ghost inverse = { λ n. record { size = n; height = height_of n; width = width_of n } };

    ghost inverse_ok = { λ s are.
        ap (λ a. record { size = s.size; height = a; width = width_of s.size }) (sym are.tall)
        ∙ ap (λ b. record { size = s.size; height = s.height; width = b }) (sym are.wide) };
}

impl Shape {
    /// Returns the shape of `size` numbers, from 1 to 2^40: the rectangle with the least height whose square is at least `size`.
    /// Only this call takes a root and divides.
    pub fn new(size: u64) -> Shape
        requires some { 1 ≤ size }
        requires small { size ≤ 2 ^ 40 }
        ensures { result ≡ size }
    {
        let height = (size - 1).isqrt() + 1;
        let width = (size + (height - 1)) / height;
        made(size, height, width)
    }

    /// Returns the size.
    #[inline(always)]
    pub fn size(&self) -> u64
        ensures size { result ≡ self.now }
        ensures some { 1 ≤ result }
        ensures small { result ≤ 2 ^ 40 }
    {
        self.size
    }

    /// Returns how many entries the tables of one permutation of this size have. An entry has 16 bits if there are at most 2^32
    /// numbers.
    #[inline(always)]
    pub fn entries(&self) -> u64
        ensures exact { result ≡ table_entries self.now }
        ensures some { 1 ≤ result }
        ensures few { result ≤ 6 * 2 ^ 20 }
    {
        3 * (self.height.number() + self.width.number())
    }

    /// Returns the permutation of the shape's numbers by `seed`.
    #[inline(always)]
    pub fn network(&self, seed: u64) -> Network
        ensures size { result.size ≡ self.now }
        ensures seed { result.seed ≡ seed }
    {
        Network {
            size: self.size,
            seed,
            height: self.height,
            width: self.width,
        }
    }
}

/// Returns the shape with these sides.
fn made(size: u64, height: u64, width: u64) -> Shape
    requires { AreSides size height width }
    ensures { result ≡ size }
{
    Shape {
        size,
        height: FixedDivisor::new(height),
        width: FixedDivisor::new(width),
    }
}
