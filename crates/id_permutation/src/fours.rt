//! Places of numbers, and numbers at places, found side by side. No number waits for the table entries of another.

ghost use Rattle.std.specs.Prelude.{◌≡◌, ◌<◌, All, length, map};
ghost use Rattle.id_permutation.specs.Fours.{AreWithin, four_after, four_by, four_of};
ghost use Rattle.id_permutation.specs.Placement.{IsWithin, halves_of, place, round_count, rounds, unplace};

use crate::halves::Halves;
use crate::table_network::{TableNetwork, walk_back, walk_on};

/// The halves of four numbers.
#[derive(Clone, Copy)]
pub struct Four {
    pub first: Halves,
    pub second: Halves,
    pub third: Halves,
    pub fourth: Halves,
}

impl<'a> TableNetwork<'a> {
    /// Replaces eight numbers with their places.
    #[inline(always)]
    pub fn place_eight(&self, numbers: &mut [u64])
        requires eight { length numbers.old ≡ 8 }
        requires below { All (λ x. x < self.now.network.size) numbers.old }
        ensures { numbers.new ≡ map (λ x. place self.now.network.size self.now.network.seed x) numbers.old }
    {
        let (low, high) = numbers.split_at_mut(4);
        let first = self.split_four(low);
        let second = self.split_four(high);
        let first = self.mix_four(0, first);
        let second = self.mix_four(0, second);
        let first = self.mix_four(1, first);
        let second = self.mix_four(1, second);
        let first = self.mix_four(2, first);
        let second = self.mix_four(2, second);
        self.put_four(first, low);
        self.put_four(second, high);
    }

    #[inline(always)]
    fn split_four(&self, numbers: &[u64]) -> Four
        requires four { length numbers.now ≡ 4 }
        requires below { All (λ x. x < self.now.network.size) numbers.now }
        ensures exact { result ≡ four_of self.now.network.height self.now.network.width self.now.network.seed 0 numbers.now }
        ensures within { AreWithin self.now.network.height self.now.network.width result }
    {
        Four {
            first: self.network.split(numbers[0]),
            second: self.network.split(numbers[1]),
            third: self.network.split(numbers[2]),
            fourth: self.network.split(numbers[3]),
        }
    }

    /// Moves the halves by the even round of a pair and the odd round after it.
    #[inline(always)]
    fn mix_four(&self, pair: u64, four: Four) -> Four
        requires few { pair < 3 }
        requires within { AreWithin self.now.network.height self.now.network.width four }
        ensures exact { result ≡ four_by self.now.network.height self.now.network.width self.now.network.seed pair four }
        ensures within { AreWithin self.now.network.height self.now.network.width result }
    {
        Four {
            first: self.mix_pair(pair, four.first),
            second: self.mix_pair(pair, four.second),
            third: self.mix_pair(pair, four.third),
            fourth: self.mix_pair(pair, four.fourth),
        }
    }

    /// Replaces four numbers with their places. `four` are their halves after all rounds.
    #[inline(always)]
    fn put_four(&self, four: Four, numbers: &mut [u64])
        requires four { length numbers.old ≡ 4 }
        requires below { All (λ x. x < self.now.network.size) numbers.old }
        requires mixed { four ≡ four_of self.now.network.height self.now.network.width self.now.network.seed round_count numbers.old }
        requires within { AreWithin self.now.network.height self.now.network.width four }
        ensures { numbers.new ≡ map (λ x. place self.now.network.size self.now.network.seed x) numbers.old }
    {
        let (first, second) = (numbers[0], numbers[1]);
        let (third, fourth) = (numbers[2], numbers[3]);
        numbers[0] = self.settled(first, four.first);
        numbers[1] = self.settled(second, four.second);
        numbers[2] = self.settled(third, four.third);
        numbers[3] = self.settled(fourth, four.fourth);
    }

    /// Returns the place of a number. `halves` are its halves after all rounds.
    #[inline(always)]
    fn settled(&self, number: u64, halves: Halves) -> u64
        requires below { number < self.now.network.size }
        requires mixed { halves ≡ rounds self.now.network.height self.now.network.width self.now.network.seed round_count (halves_of self.now.network.width number) }
        requires within { IsWithin self.now.network.height self.now.network.width halves }
        ensures { result ≡ place self.now.network.size self.now.network.seed number }
    {
        let place = self.network.join(halves);
        if place < self.network.size {
            place
        } else {
            walk_on(self.network, self.tables, number, place)
        }
    }

    /// Replaces eight places with the numbers that have them.
    #[inline(always)]
    pub fn number_eight(&self, places: &mut [u64])
        requires eight { length places.old ≡ 8 }
        requires below { All (λ y. y < self.now.network.size) places.old }
        ensures { places.new ≡ map (λ y. unplace self.now.network.size self.now.network.seed y) places.old }
    {
        let (low, high) = places.split_at_mut(4);
        let first = self.split_four(low);
        let second = self.split_four(high);
        let first = self.unmix_four(2, first);
        let second = self.unmix_four(2, second);
        let first = self.unmix_four(1, first);
        let second = self.unmix_four(1, second);
        let first = self.unmix_four(0, first);
        let second = self.unmix_four(0, second);
        self.put_four_numbers(first, low);
        self.put_four_numbers(second, high);
    }

    /// Returns the halves from which the rounds of a pair make `four`.
    #[inline(always)]
    fn unmix_four(&self, pair: u64, four: Four) -> Four
        requires few { pair < 3 }
        requires within { AreWithin self.now.network.height self.now.network.width four }
        ensures undone { four_by self.now.network.height self.now.network.width self.now.network.seed pair result ≡ four }
        ensures within { AreWithin self.now.network.height self.now.network.width result }
    {
        Four {
            first: self.unmix_pair(pair, four.first),
            second: self.unmix_pair(pair, four.second),
            third: self.unmix_pair(pair, four.third),
            fourth: self.unmix_pair(pair, four.fourth),
        }
    }

    /// Replaces four places with the numbers that have them. From the halves `four` all rounds make the halves of the places.
    #[inline(always)]
    fn put_four_numbers(&self, four: Four, places: &mut [u64])
        requires four { length places.old ≡ 4 }
        requires below { All (λ y. y < self.now.network.size) places.old }
        requires unmixed { four_after self.now.network.height self.now.network.width self.now.network.seed four ≡ four_of self.now.network.height self.now.network.width self.now.network.seed 0 places.old }
        requires within { AreWithin self.now.network.height self.now.network.width four }
        ensures { places.new ≡ map (λ y. unplace self.now.network.size self.now.network.seed y) places.old }
    {
        let (first, second) = (places[0], places[1]);
        let (third, fourth) = (places[2], places[3]);
        places[0] = self.settled_back(first, four.first);
        places[1] = self.settled_back(second, four.second);
        places[2] = self.settled_back(third, four.third);
        places[3] = self.settled_back(fourth, four.fourth);
    }

    /// Returns the number that has a place. From `halves` all rounds make the halves of the place.
    #[inline(always)]
    fn settled_back(&self, place: u64, halves: Halves) -> u64
        requires below { place < self.now.network.size }
        requires unmixed { rounds self.now.network.height self.now.network.width self.now.network.seed round_count halves ≡ halves_of self.now.network.width place }
        requires within { IsWithin self.now.network.height self.now.network.width halves }
        ensures { result ≡ unplace self.now.network.size self.now.network.seed place }
    {
        let number = self.network.join(halves);
        if number < self.network.size {
            number
        } else {
            walk_back(self.network, self.tables, place, number)
        }
    }
}
