//! The network of rounds, by tables of their functions. So a round takes no block of Philox and no division.

ghost use Rattle.std.specs.Prelude.{◌≡◌, ◌+◌, ◌*◌, ◌%◌, ◌<◌, ◌≤◌, ◌^◌, All, map};
ghost use Rattle.id_permutation.specs.Placement.{IsWithin, round_number, round, mix, place, unplace};
ghost use Rattle.id_permutation.specs.Tables.{tables_of};

use crate::halves::{Halves, reduce};
use crate::network::Network;

/// A network with the borrowed tables of its rounds, one after the other.
#[derive(Drop)]
pub struct TableNetwork<'a> {
    pub network: Network,
    pub tables: &'a [u16],
    ghost exact: { tables.now ≡ tables_of network.height network.width network.seed },
}

impl<'a> TableNetwork<'a> {
    /// Returns the place of a number: the first number after it, along the rounds, that is below `size`.
    #[inline(always)]
    pub fn place(&self, number: u64) -> u64
        requires below { number < self.now.network.size }
        ensures exact { result ≡ place self.now.network.size self.now.network.seed number }
    {
        let place = self.mix(number);
        if place < self.network.size {
            place
        } else {
            walk_on(self.network, self.tables, number, place)
        }
    }

    /// Returns the number whose place is `place`: the first number before it, along the rounds, that is below `size`.
    #[inline(always)]
    pub fn unplace(&self, place: u64) -> u64
        requires below { place < self.now.network.size }
        ensures exact { result ≡ unplace self.now.network.size self.now.network.seed place }
    {
        let number = self.unmix(place);
        if number < self.network.size {
            number
        } else {
            walk_back(self.network, self.tables, place, number)
        }
    }

    /// Replaces each number with its place.
    pub fn places(&self, numbers: &mut [u64])
        requires below { All (λ x. x < self.now.network.size) numbers.old }
        ensures { numbers.new ≡ map (λ x. place self.now.network.size self.now.network.seed x) numbers.old }
    {
        let tables = self.copied(); // so that no write to the numbers can change it
        let mut done = 0;
        while numbers.len() - done >= 8 {
            tables.place_eight(&mut numbers[done..done + 8]);
            done += 8;
        }
        for i in done..numbers.len() {
            numbers[i] = tables.place(numbers[i]);
        }
    }

    /// Replaces each place with the number that has it.
    pub fn numbers(&self, places: &mut [u64])
        requires below { All (λ y. y < self.now.network.size) places.old }
        ensures { places.new ≡ map (λ y. unplace self.now.network.size self.now.network.seed y) places.old }
    {
        let tables = self.copied();
        let mut done = 0;
        while places.len() - done >= 8 {
            tables.number_eight(&mut places[done..done + 8]);
            done += 8;
        }
        for i in done..places.len() {
            places[i] = tables.unplace(places[i]);
        }
    }

    #[inline(always)]
    fn copied(&self) -> TableNetwork<'a>
        ensures { result.network ≡ self.now.network }
    {
        TableNetwork {
            network: self.network,
            tables: self.tables,
        }
    }

    #[inline(always)]
    fn mix(&self, number: u64) -> u64
        requires within { number < self.now.network.height * self.now.network.width }
        ensures exact { result ≡ mix self.now.network.size self.now.network.seed number }
        ensures within { result < self.now.network.height * self.now.network.width }
    {
        let halves = self.network.split(number);
        let halves = self.mix_pair(0, halves);
        let halves = self.mix_pair(1, halves);
        let halves = self.mix_pair(2, halves);
        self.network.join(halves)
    }

    #[inline(always)]
    fn unmix(&self, mixed: u64) -> u64
        requires within { mixed < self.now.network.height * self.now.network.width }
        ensures undone { mix self.now.network.size self.now.network.seed result ≡ mixed }
        ensures within { result < self.now.network.height * self.now.network.width }
    {
        let halves = self.network.split(mixed);
        let halves = self.unmix_pair(2, halves);
        let halves = self.unmix_pair(1, halves);
        let halves = self.unmix_pair(0, halves);
        self.network.join(halves)
    }

    /// Moves the halves by the even round of a pair and the odd round after it.
    #[inline(always)]
    pub(crate) fn mix_pair(&self, pair: u64, halves: Halves) -> Halves
        requires few { pair < 3 }
        requires within { IsWithin self.now.network.height self.now.network.width halves }
        ensures exact { result ≡
            round self.now.network.height self.now.network.width self.now.network.seed (2 * pair + 1)
            (round self.now.network.height self.now.network.width self.now.network.seed (2 * pair) halves) }
        ensures within { IsWithin self.now.network.height self.now.network.width result }
    {
        let height = self.network.height.number();
        let width = self.network.width.number();
        let added = self.even_value(pair, halves.right);
        let left = reduce(halves.left + added, height);
        let added = self.odd_value(pair, left);
        let right = reduce(halves.right + added, width);
        Halves { left, right }
    }

    /// Returns the halves from which the rounds of a pair make `halves`.
    #[inline(always)]
    pub(crate) fn unmix_pair(&self, pair: u64, halves: Halves) -> Halves
        requires few { pair < 3 }
        requires within { IsWithin self.now.network.height self.now.network.width halves }
        ensures undone { round self.now.network.height self.now.network.width self.now.network.seed (2 * pair + 1)
            (round self.now.network.height self.now.network.width self.now.network.seed (2 * pair) result) ≡ halves }
        ensures within { IsWithin self.now.network.height self.now.network.width result }
    {
        let height = self.network.height.number();
        let width = self.network.width.number();
        let taken = self.odd_value(pair, halves.left);
        let right = reduce(halves.right + (width - taken), width);
        let taken = self.even_value(pair, right);
        let left = reduce(halves.left + (height - taken), height);
        Halves { left, right }
    }

    #[inline(always)]
    fn even_value(&self, pair: u64, right: u64) -> u64
        requires few { pair < 3 }
        requires within { right < self.now.network.width }
        ensures exact { result ≡ round_number self.now.network.seed (2 * pair) right % self.now.network.height }
        ensures below { result < self.now.network.height }
    {
        let first = self.even_table(pair);
        u64::from(self.tables[(first + right) as usize])
    }

    #[inline(always)]
    fn odd_value(&self, pair: u64, left: u64) -> u64
        requires few { pair < 3 }
        requires within { left < self.now.network.height }
        ensures exact { result ≡ round_number self.now.network.seed (2 * pair + 1) left % self.now.network.width }
        ensures below { result < self.now.network.width }
    {
        let first = self.odd_table(pair);
        u64::from(self.tables[(first + left) as usize])
    }

    /// Returns where the table of a pair's even round begins.
    #[inline(always)]
    fn even_table(&self, pair: u64) -> u64
        requires few { pair < 3 }
        ensures exact { result ≡ pair * (self.now.network.height + self.now.network.width) }
        ensures small { result < 2 ^ 23 }
    {
        pair * (self.network.height.number() + self.network.width.number())
    }

    /// Returns where the table of a pair's odd round begins.
    #[inline(always)]
    fn odd_table(&self, pair: u64) -> u64
        requires few { pair < 3 }
        ensures exact { result ≡ pair * (self.now.network.height + self.now.network.width) + self.now.network.width }
        ensures small { result < 2 ^ 24 }
    {
        self.even_table(pair) + self.network.width.number()
    }
}

/// Finishes the walk from `number`, after its first step led to `mixed`. Few numbers walk so far. It is handed copies, so that an
/// order needs no place in memory when places are found.
#[cold]
#[inline(never)]
pub(crate) fn walk_on(network: Network, tables: &[u16], number: u64, mixed: u64) -> u64
    requires tables { tables.now ≡ tables_of network.height network.width network.seed }
    requires below { number < network.size }
    requires mixed { mixed ≡ mix network.size network.seed number }
    requires within { mixed < network.height * network.width }
    ensures exact { result ≡ place network.size network.seed number }
{
    let by_tables = TableNetwork { network, tables };
    let mut place = mixed;
    while place >= by_tables.network.size {
        place = by_tables.mix(place);
    }
    place
}

/// Finishes the walk back from `place`, after its first step led to `unmixed`. Few places walk so far.
#[cold]
#[inline(never)]
pub(crate) fn walk_back(network: Network, tables: &[u16], place: u64, unmixed: u64) -> u64
    requires tables { tables.now ≡ tables_of network.height network.width network.seed }
    requires below { place < network.size }
    requires unmixed { mix network.size network.seed unmixed ≡ place }
    requires within { unmixed < network.height * network.width }
    ensures exact { result ≡ unplace network.size network.seed place }
{
    let by_tables = TableNetwork { network, tables };
    let mut number = unmixed;
    while number >= by_tables.network.size {
        number = by_tables.unmix(number);
    }
    number
}
