//! The two halves of a number, and addition modulo a side.

ghost use Rattle.std.specs.Prelude.{◌≡◌, ◌+◌, ◌*◌, ◌%◌, ◌<◌, ◌≤◌, ◌^◌};

use fixed_divisors::FixedDivisor;

/// The halves of a number in a rectangle: its row, and its place in that row.
#[derive(Clone, Copy)]
pub struct Halves {
    pub left: u64,
    pub right: u64,
}

/// Returns `x` modulo `modulus`, without a branch. In a round, a branch would be predicted wrong half of the time.
#[inline(always)]
pub fn reduce(x: u64, modulus: u64) -> u64
    requires below_twice { x < 2 * modulus }
    requires small { modulus ≤ 2 ^ 32 }
    ensures exact { result ≡ x % modulus }
    ensures below { result < modulus }
{
    x.min(x.wrapping_sub(modulus)) // which wraps to a larger number where `x` is below `modulus`
}

/// Returns `x + addend` modulo `modulus`.
#[inline(always)]
pub fn add_modulo(x: u64, addend: u64, modulus: FixedDivisor) -> u64
    requires below { x < modulus }
    requires small { modulus ≤ 2 ^ 32 }
    ensures { result ≡ (x + addend) % modulus }
{
    let added = modulus.remainder(addend);
    reduce(x + added, modulus.number())
}

/// Returns the number that gives `x` when `subtrahend` is added modulo `modulus`.
#[inline(always)]
pub fn subtract_modulo(x: u64, subtrahend: u64, modulus: FixedDivisor) -> u64
    requires below { x < modulus }
    requires small { modulus ≤ 2 ^ 32 }
    ensures below { result < modulus }
    ensures undone { (result + subtrahend) % modulus ≡ x }
{
    let number = modulus.number();
    let taken = modulus.remainder(subtrahend);
    reduce(x + (number - taken), number)
}
