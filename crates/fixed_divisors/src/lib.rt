//! Division by a number that stays the same, without a division instruction. The number's reciprocal is kept, and the high half of
//! a product with it is the quotient or one less. The rest tells which.
#![tactic(auto)]

ghost use Rattle.std.specs.Prelude.{◌≡◌, ℕ, ◌+◌, ◌*◌, ◌/◌, ◌%◌, ◌<◌, ◌^◌, length, map};
ghost use Rattle.fixed_divisors.specs.Reciprocal.{IsEstimate};

use std::marker::Model;

/// A divisor from 1 to 2^64 - 1. A contract sees the number.
#[derive(Clone, Copy, Debug)]
pub struct FixedDivisor {
    number: u64,
    reciprocal: u64,
}

impl Model for FixedDivisor {
    ghost use Rattle.std.specs.Prelude.{ℕ};
    ghost use Rattle.std.proofs.Common.{ap, sym};
    ghost use Rattle.fixed_divisors.specs.Reciprocal.{IsReciprocal, reciprocal_of};

    ghost Value = { ℕ };

    ghost view = { λ d. d.number };

    ghost invariant = { λ d. IsReciprocal d.number d.reciprocal };

    ghost inverse = { λ n. record { number = n; reciprocal = reciprocal_of n } };

    ghost inverse_ok = { λ d is. ap (λ r. record { number = d.number; reciprocal = r }) (sym is.exact) };
}

/// A quotient and its remainder.
#[derive(Clone, Copy, Debug, PartialEq, Eq)]
pub struct Division {
    pub quotient: u64,
    pub remainder: u64,
}

impl FixedDivisor {
    /// Returns the divisor of a number, which must be at least 1. Only this call divides.
    #[inline]
    pub fn new(divisor: u64) -> FixedDivisor
        requires { 0 < divisor }
        ensures { result ≡ divisor }
    {
        FixedDivisor {
            number: divisor,
            reciprocal: u64::MAX / divisor,
        }
    }

    /// Returns the number by which it divides.
    #[inline(always)]
    pub fn number(&self) -> u64
        ensures number { result ≡ self.now }
        ensures some { 0 < result }
    {
        self.number
    }

    /// Returns the quotient of `x`, or one less.
    #[inline(always)]
    fn estimate(&self, x: u64) -> u64
        ensures { IsEstimate x self.now result }
    {
        high_half(x, self.reciprocal)
    }

    /// Returns `x` divided by the number: the quotient, rounded down, and the remainder.
    #[inline(always)]
    pub fn divide(&self, x: u64) -> Division
        ensures quotient { result.quotient ≡ x / self.now }
        ensures remainder { result.remainder ≡ x % self.now }
        ensures below { result.remainder < self.now }
    {
        let estimate = self.estimate(x);
        let rest = x - estimate * self.number;
        Division {
            quotient: estimate + times_left(rest, self.number),
            remainder: reduced(rest, self.number),
        }
    }

    /// Returns `x` divided by the number, rounded down.
    #[inline(always)]
    pub fn quotient(&self, x: u64) -> u64
        ensures { result ≡ x / self.now }
    {
        self.divide(x).quotient
    }

    /// Returns `x` modulo the number.
    #[inline(always)]
    pub fn remainder(&self, x: u64) -> u64
        ensures exact { result ≡ x % self.now }
        ensures below { result < self.now }
    {
        self.divide(x).remainder
    }

    /// Replaces each number with its remainder.
    #[inline]
    pub fn remainders(&self, numbers: &mut [u64])
        ensures { numbers.new ≡ map (λ x. x % self.now) numbers.old }
    {
        let divisor = *self; // a copy, so that no write to the numbers can change it
        for number in numbers.iter_mut() {
            *number = divisor.remainder(*number);
        }
    }
}

/// Returns the high half of the product, which has 128 bits.
#[inline(always)]
fn high_half(x: u64, y: u64) -> u64
    ensures { result ≡ x * y / 2 ^ 64 }
{
    let product = u128::from(x) * u128::from(y);
    (product >> 64) as u64
}

/// Returns how often the divisor goes into `rest`, which is below twice the divisor: once or not at all.
#[inline(always)]
fn times_left(rest: u64, divisor: u64) -> u64
    requires { rest < 2 * divisor }
    ensures { result ≡ rest / divisor }
{
    u64::from(rest >= divisor)
}

/// Returns `rest` modulo the divisor. `rest` must be below twice the divisor. If `rest` is below the divisor, the difference wraps,
/// so the smaller number is right. A comparison with a subtraction can become a branch, but this doesn't.
#[inline(always)]
fn reduced(rest: u64, divisor: u64) -> u64
    requires { rest < 2 * divisor }
    ensures { result ≡ rest % divisor }
{
    rest.min(rest.wrapping_sub(divisor))
}
