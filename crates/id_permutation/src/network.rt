//! The network of rounds over a rectangle of numbers, and the walks along its cycles.

ghost use Rattle.std.specs.Prelude.{◌≡◌, ℕ, ◌+◌, ◌*◌, ◌%◌, ◌<◌, ◌≤◌, ◌^◌, All, map};
ghost use Rattle.id_permutation.specs.Placement.{height_of, width_of, IsWithin, halves_of, number_of, round_number, round, mix, place, unplace};

use crate::halves::{Halves, add_modulo, subtract_modulo};
use fixed_divisors::{Division, FixedDivisor};
use philox_seeds::keyed_number;

const ROUND_LEVEL: u32 = 6;

/// The permutation of `size` numbers by `seed`, with the sides of its rectangle.
#[derive(Clone, Copy)]
pub struct Network {
    pub size: u64,
    pub seed: u64,
    pub height: FixedDivisor,
    pub width: FixedDivisor,
    ghost some: { 0 < size },
    ghost small: { size ≤ 2 ^ 40 },
    ghost tall: { height ≡ height_of size },
    ghost wide: { width ≡ width_of size },
    ghost rows: { 0 < height },
    ghost columns: { 0 < width },
    ghost low: { height ≤ 2 ^ 20 },
    ghost narrow: { width ≤ 2 ^ 20 },
}

/// Returns the number that the function of round `index` gives for `half`.
#[inline(always)]
pub fn round_number(seed: u64, index: u32, half: u64) -> u64
    requires { half < 2 ^ 32 }
    ensures { result ≡ round_number seed index half }
{
    keyed_number(seed, [half as u32, 0, index, ROUND_LEVEL])
}

impl Network {
    /// Returns the place of a number: the first number after it, along the rounds, that is below `size`.
    pub fn place(&self, number: u64) -> u64
        requires below { number < self.now.size }
        ensures exact { result ≡ place self.now.size self.now.seed number }
    {
        let mut place = self.mix(number);
        while place >= self.size {
            place = self.mix(place);
        }
        place
    }

    /// Returns the number whose place is `place`: the first number before it, along the rounds, that is below `size`.
    pub fn unplace(&self, place: u64) -> u64
        requires below { place < self.now.size }
        ensures exact { result ≡ unplace self.now.size self.now.seed place }
    {
        let mut number = self.unmix(place);
        while number >= self.size {
            number = self.unmix(number);
        }
        number
    }

    /// Replaces each number with its place.
    pub fn places(&self, numbers: &mut [u64])
        requires below { All (λ x. x < self.now.size) numbers.old }
        ensures { numbers.new ≡ map (λ x. place self.now.size self.now.seed x) numbers.old }
    {
        for number in numbers.iter_mut() {
            *number = self.place(*number);
        }
    }

    /// Replaces each place with the number that has it.
    pub fn numbers(&self, places: &mut [u64])
        requires below { All (λ y. y < self.now.size) places.old }
        ensures { places.new ≡ map (λ y. unplace self.now.size self.now.seed y) places.old }
    {
        for place in places.iter_mut() {
            *place = self.unplace(*place);
        }
    }

    #[inline(always)]
    fn mix(&self, number: u64) -> u64
        requires within { number < self.now.height * self.now.width }
        ensures exact { result ≡ mix self.now.size self.now.seed number }
        ensures within { result < self.now.height * self.now.width }
    {
        let mut halves = self.split(number);
        for pair in 0..3 {
            halves = self.even_round(2 * pair, halves);
            halves = self.odd_round(2 * pair + 1, halves);
        }
        self.join(halves)
    }

    #[inline(always)]
    fn unmix(&self, mixed: u64) -> u64
        requires within { mixed < self.now.height * self.now.width }
        ensures undone { mix self.now.size self.now.seed result ≡ mixed }
        ensures within { result < self.now.height * self.now.width }
    {
        let mut halves = self.split(mixed);
        for pair in (0..3).rev() {
            halves = self.undo_odd_round(2 * pair + 1, halves);
            halves = self.undo_even_round(2 * pair, halves);
        }
        self.join(halves)
    }

    /// Returns the halves of a number.
    #[inline(always)]
    pub fn split(&self, number: u64) -> Halves
        requires { number < self.now.height * self.now.width }
        ensures exact { result ≡ halves_of self.now.width number }
        ensures within { IsWithin self.now.height self.now.width result }
    {
        let Division {
            quotient,
            remainder,
        } = self.width.divide(number);
        Halves {
            left: quotient,
            right: remainder,
        }
    }

    /// Returns the number with these halves.
    #[inline(always)]
    pub fn join(&self, halves: Halves) -> u64
        requires { IsWithin self.now.height self.now.width halves }
        ensures exact { result ≡ number_of self.now.width halves }
        ensures within { result < self.now.height * self.now.width }
    {
        halves.left * self.width.number() + halves.right
    }

    #[inline(always)]
    fn even_round(&self, index: u32, halves: Halves) -> Halves
        requires even { index % 2 ≡ 0 }
        requires within { IsWithin self.now.height self.now.width halves }
        ensures exact { result ≡ round self.now.height self.now.width self.now.seed index halves }
        ensures within { IsWithin self.now.height self.now.width result }
    {
        let number = round_number(self.seed, index, halves.right);
        Halves {
            left: add_modulo(halves.left, number, self.height),
            right: halves.right,
        }
    }

    #[inline(always)]
    fn odd_round(&self, index: u32, halves: Halves) -> Halves
        requires odd { index % 2 ≡ 1 }
        requires within { IsWithin self.now.height self.now.width halves }
        ensures exact { result ≡ round self.now.height self.now.width self.now.seed index halves }
        ensures within { IsWithin self.now.height self.now.width result }
    {
        let number = round_number(self.seed, index, halves.left);
        Halves {
            left: halves.left,
            right: add_modulo(halves.right, number, self.width),
        }
    }

    #[inline(always)]
    fn undo_even_round(&self, index: u32, halves: Halves) -> Halves
        requires even { index % 2 ≡ 0 }
        requires within { IsWithin self.now.height self.now.width halves }
        ensures undone { round self.now.height self.now.width self.now.seed index result ≡ halves }
        ensures within { IsWithin self.now.height self.now.width result }
    {
        let number = round_number(self.seed, index, halves.right);
        Halves {
            left: subtract_modulo(halves.left, number, self.height),
            right: halves.right,
        }
    }

    #[inline(always)]
    fn undo_odd_round(&self, index: u32, halves: Halves) -> Halves
        requires odd { index % 2 ≡ 1 }
        requires within { IsWithin self.now.height self.now.width halves }
        ensures undone { round self.now.height self.now.width self.now.seed index result ≡ halves }
        ensures within { IsWithin self.now.height self.now.width result }
    {
        let number = round_number(self.seed, index, halves.left);
        Halves {
            left: halves.left,
            right: subtract_modulo(halves.right, number, self.width),
        }
    }
}
