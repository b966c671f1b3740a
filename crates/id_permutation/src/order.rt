//! One type for three ways to order the numbers below a size: each in its own place, by rounds, or by tables of the rounds.

ghost use Rattle.std.specs.Prelude.{◌≡◌, ◌+◌, ◌*◌, ◌<◌, ◌≤◌, ◌^◌, None, Some, All, length, map};
ghost use Rattle.id_permutation.specs.Order.{Arrangement, place_in, number_at, order_steps};
ghost use Rattle.id_permutation.specs.Tables.{tables_of};

use crate::network::Network;
use crate::shape::Shape;
use crate::table_network::TableNetwork;
use std::marker::Model;
use std::sync::ledger::Ledger;
use step_count::Steps;

#[derive(Drop)]
enum Way<'a> {
    InPlace(u64),
    Rounds(Network),
    Tables(TableNetwork<'a>),
}

/// An order of the numbers 0..n-1. A contract sees `size`, which is n, and `seed`, which is `None` if each number is in its own
/// place. No contract tells how places are found. An order takes no memory, and can borrow tables of its rounds.
#[derive(Drop)]
pub struct Order<'a> {
    way: Way<'a>,
}

impl<'a> Model for Order<'a> {
    ghost use Rattle.id_permutation.specs.Order.{Arrangement};

    ghost Value = { Arrangement };

    ghost use Rattle.id_permutation.specs.Way.{order_of};

    ghost view = { λ o. order_of o.way };
}

impl<'a> Order<'a> {
    /// Returns the order with each of `size` numbers in its own place.
    #[inline(always)]
    pub fn in_place(size: u64) -> Order<'a>
        ensures size { result.size ≡ size }
        ensures seed { result.seed ≡ None }
    {
        Order {
            way: Way::InPlace(size),
        }
    }

    /// Returns the permutation of `size` numbers, from 1 to 2^40, by `seed`. Takes no memory.
    pub fn by_rounds(size: u64, seed: u64) -> Order<'a>
        requires some { 1 ≤ size }
        requires small { size ≤ 2 ^ 40 }
        ensures size { result.size ≡ size }
        ensures seed { result.seed ≡ Some seed }
    {
        Order::of_shape(&Shape::new(size), seed)
    }

    /// Returns the permutation of a shape's numbers by `seed`. Takes no memory.
    #[inline(always)]
    pub fn of_shape(shape: &Shape, seed: u64) -> Order<'a>
        ensures size { result.size ≡ shape.now }
        ensures seed { result.seed ≡ Some seed }
    {
        Order {
            way: Way::Rounds(shape.network(seed)),
        }
    }

    /// Returns the permutation of a network, by the tables of its rounds.
    #[inline(always)]
    pub(crate) fn of_tables(network: Network, tables: &'a [u16]) -> Order<'a>
        requires { tables.now ≡ tables_of network.height network.width network.seed }
        ensures size { result.size ≡ network.size }
        ensures seed { result.seed ≡ Some network.seed }
    {
        Order {
            way: Way::Tables(TableNetwork { network, tables }),
        }
    }

    /// Returns how many numbers it orders.
    #[inline]
    pub fn size(&self) -> u64
        ensures { result ≡ self.now.size }
    {
        match &self.way {
            Way::InPlace(size) => *size,
            Way::Rounds(network) => network.size,
            Way::Tables(tables) => tables.network.size,
        }
    }

    /// Returns the place of the number `x`. Both are from 0 to n - 1. Counts as one step if the order has a seed.
    #[inline]
    pub fn place<L: Ledger>(&self, x: u64, steps: &mut Steps<L>) -> u64
        requires below { x < self.now.size }
        ensures exact { result ≡ place_in self.now x }
        ensures below { result < self.now.size }
        ensures undone { number_at self.now result ≡ x }
        ensures steps { steps.new ≡ steps.old + order_steps self.now }
    {
        self.count(steps);
        self.found_place(x)
    }

    /// Returns the number whose place is `y`. Both are from 0 to n - 1. Counts as one step if the order has a seed.
    #[inline]
    pub fn unplace<L: Ledger>(&self, y: u64, steps: &mut Steps<L>) -> u64
        requires below { y < self.now.size }
        ensures exact { result ≡ number_at self.now y }
        ensures below { result < self.now.size }
        ensures redone { place_in self.now result ≡ y }
        ensures steps { steps.new ≡ steps.old + order_steps self.now }
    {
        self.count(steps);
        self.found_number(y)
    }

    /// Replaces each number with its place. Both are from 0 to n - 1. Each counts as one step if the order has a seed.
    pub fn places<L: Ledger>(&self, numbers: &mut [u64], steps: &mut Steps<L>)
        requires below { All (λ x. x < self.now.size) numbers.old }
        ensures exact { numbers.new ≡ map (λ x. place_in self.now x) numbers.old }
        ensures steps { steps.new ≡ steps.old + length numbers.old * order_steps self.now }
    {
        self.count_each(numbers.len(), steps);
        match &self.way {
            Way::InPlace(_) => {}
            Way::Rounds(network) => network.places(numbers),
            Way::Tables(tables) => tables.places(numbers),
        }
    }

    /// Replaces each place with the number that has it. Both are from 0 to n - 1. Each counts as one step if the order has a seed.
    pub fn numbers<L: Ledger>(&self, places: &mut [u64], steps: &mut Steps<L>)
        requires below { All (λ y. y < self.now.size) places.old }
        ensures exact { places.new ≡ map (λ y. number_at self.now y) places.old }
        ensures steps { steps.new ≡ steps.old + length places.old * order_steps self.now }
    {
        self.count_each(places.len(), steps);
        match &self.way {
            Way::InPlace(_) => {}
            Way::Rounds(network) => network.numbers(places),
            Way::Tables(tables) => tables.numbers(places),
        }
    }

    #[inline(always)]
    fn found_place(&self, x: u64) -> u64
        requires below { x < self.now.size }
        ensures exact { result ≡ place_in self.now x }
    {
        match &self.way {
            Way::InPlace(_) => x,
            Way::Rounds(network) => {
                let network = *network; // a copy, so that the order needs no place in memory
                network.place(x)
            }
            Way::Tables(tables) => tables.place(x),
        }
    }

    #[inline(always)]
    fn found_number(&self, y: u64) -> u64
        requires below { y < self.now.size }
        ensures exact { result ≡ number_at self.now y }
    {
        match &self.way {
            Way::InPlace(_) => y,
            Way::Rounds(network) => {
                let network = *network;
                network.unplace(y)
            }
            Way::Tables(tables) => tables.unplace(y),
        }
    }

    /// Counts one place or one number.
    #[inline(always)]
    fn count<L: Ledger>(&self, steps: &mut Steps<L>)
        ensures { steps.new ≡ steps.old + order_steps self.now }
    {
        match &self.way {
            Way::InPlace(_) => {}
            Way::Rounds(_) => steps.tick(), // the one step of a place by rounds
            Way::Tables(_) => steps.tick(), // the one step of a place by tables
        }
    }

    /// Counts `times` places or numbers.
    #[inline(always)]
    fn count_each<L: Ledger>(&self, times: usize, steps: &mut Steps<L>)
        ensures { steps.new ≡ steps.old + times * order_steps self.now }
    {
        match &self.way {
            Way::InPlace(_) => {}
            Way::Rounds(_) => tick_each(times, steps),
            Way::Tables(_) => tick_each(times, steps),
        }
    }
}

#[inline(always)]
fn tick_each<L: Ledger>(times: usize, steps: &mut Steps<L>)
    ensures { steps.new ≡ steps.old + times }
{
    for _time in 0..times {
        steps.tick(); // the one step of each place or number
    }
}
