//! A list of weights, kept so that the group of a number is found at once or by a short search.

ghost use Rattle.std.specs.Prelude.{◌≡◌, ℕ, ◌+◌, ◌<◌, ◌≤◌, ◌^◌, All, IfOk, length, map, slice_index, sum};
ghost use Rattle.weight_tables.specs.Weights.{Selects, prefix_sum, selected, weight_before};
ghost use Rattle.weight_tables.specs.PrefixSums.{prefix_sums};
ghost use Rattle.weight_tables.specs.Harmonic.{harmonic_weight, harmonic_weights};

use crate::finders::{first_groups, group_table, last_sum, search_from, slice_shift};
use out_of_memory::Memory;
use std::alloc::Global;
use std::marker::Model;

/// The weight of the first group of harmonic weights.
const FIRST_HARMONIC_WEIGHT: u64 = 1_000_000_000;

/// A list of weights, one for each group. A contract sees the weights.
#[derive(Debug)]
pub struct Weights {
    prefix_sums: Vec<u64>,
    /// The group of each number, if there are few numbers; else empty.
    table: Vec<u16>,
    /// For each slice of 2^shift numbers, a group from which a search finds the group of each number in the slice.
    first_groups: Vec<u32>,
    shift: u32,
}

impl Drop for Weights {
    fn drop(self) {
        let Weights {
            prefix_sums,
            table,
            first_groups,
            shift: _,
        } = self;
        drop(prefix_sums);
        drop(table);
        drop(first_groups);
    }
}

impl Model for Weights {
    ghost use Rattle.std.specs.Prelude.{List, ℕ};
    ghost use Rattle.weight_tables.specs.PrefixSums.{weights_of};
    ghost use Rattle.weight_tables.specs.Finders.{AreFinders};

    ghost Value = { List ℕ };

    ghost view = { λ w. weights_of w.prefix_sums.items };

    ghost invariant = { λ w. AreFinders w.prefix_sums.items w.table.items w.first_groups.items w.shift };
}

impl Weights {
    /// Returns the weights of the list, one for each group, in the list's order. The list must have at least one weight. Each
    /// weight must be at least 1, and their sum at most 2^40. Makes none at `Memory`.
    pub fn new(alloc: Global, list: &[u64]) -> Result<Weights, Memory>
        requires some { 0 < length list.now }
        requires positive { All (λ weight. 1 ≤ weight) list.now }
        requires small { sum list.now ≤ 2 ^ 40 }
        ensures { IfOk result (λ weights. weights ≡ list.now) }
    {
        let prefix_sums = prefix_sums_of(alloc, list)?;
        let table = group_table(alloc, &prefix_sums)?;
        let shift = slice_shift(&prefix_sums, table.is_empty());
        let first_groups = first_groups(alloc, &prefix_sums, shift)?;
        Ok(Weights {
            prefix_sums,
            table,
            first_groups,
            shift,
        })
    }

    /// Returns the weights of `size` groups, from 1 to 4096. Group i weighs 10^9 / (i + 1)^power, rounded down, and at least 1.
    /// `power` is from 1 to 3. Makes none at `Memory`.
    pub fn harmonic(alloc: Global, size: u32, power: u32) -> Result<Weights, Memory>
        requires some { 1 ≤ size }
        requires few { size ≤ 4096 }
        requires least_power { 1 ≤ power }
        requires greatest_power { power ≤ 3 }
        ensures { IfOk result (λ weights. weights ≡ harmonic_weights size power) }
    {
        let mut list = Vec::with_capacity(alloc, size as usize)?;
        for group in 0..size {
            list.push(harmonic_weight(group, power))?;
        }
        Weights::new(alloc, &list)
    }

    /// Returns the sum of the weights, from 1 to 2^40.
    pub fn total(&self) -> u64
        ensures exact { result ≡ sum self.now }
        ensures some { 1 ≤ result }
        ensures small { result ≤ 2 ^ 40 }
    {
        last_sum(&self.prefix_sums)
    }

    /// Returns the sum of the weights of the groups before one.
    #[inline]
    pub fn weight_before(&self, group: usize) -> u64
        requires { group ≤ length self.now }
        ensures exact { result ≡ weight_before self.now group }
        ensures within { result ≤ sum self.now }
    {
        if group == 0 {
            return 0;
        }
        self.prefix_sums[group - 1]
    }

    /// Returns the weight of a group.
    #[inline]
    pub fn weight(&self, group: usize) -> u64
        requires { group < length self.now }
        ensures { result ≡ slice_index self.now group }
    {
        self.prefix_sums[group] - self.weight_before(group)
    }

    /// Returns the group that `x` selects: the first group whose prefix sum exceeds `x`. `x` is from 0 to the total - 1. The prefix
    /// sum of a group is the sum of the weights up to and including its own.
    #[inline]
    pub fn select(&self, x: u64) -> usize
        requires { x < sum self.now }
        ensures within { result < length self.now }
        ensures below { x < prefix_sum self.now result }
        ensures first { (group : ℕ) → group < result → prefix_sum self.now group ≤ x }
        ensures exact { result ≡ selected self.now x }
    {
        if self.table.is_empty() {
            self.search(x)
        } else {
            usize::from(self.table[x as usize])
        }
    }

    /// Replaces each number, from 0 to the total - 1, with the group that it selects.
    pub fn select_all(&self, numbers: &mut [u64])
        requires { All (λ x. x < sum self.now) numbers.old }
        ensures { numbers.new ≡ map (selected self.now) numbers.old }
    {
        let table = self.table.as_slice();
        if table.is_empty() {
            for searched in numbers.iter_mut() {
                *searched = self.search(*searched) as u64;
            }
        } else {
            for tabled in numbers.iter_mut() {
                *tabled = u64::from(table[*tabled as usize]);
            }
        }
    }

    /// Returns the group that `x` selects, searched from the first group of its slice on.
    #[inline]
    fn search(&self, x: u64) -> usize
        requires { x < sum self.now }
        ensures { Selects self.now x result }
    {
        let slice = (x >> self.shift) as usize;
        search_from(&self.prefix_sums, self.first_groups[slice] as usize, x)
    }
}

/// Returns the weights of `size` groups, from 1 to 4096. Group i weighs 10^9 / (i + 1)^power, rounded down, and at least 1. `power`
/// is from 1 to 3. Makes none at `Memory`.
pub fn harmonic(alloc: Global, size: u32, power: u32) -> Result<Weights, Memory>
    requires some { 1 ≤ size }
    requires few { size ≤ 4096 }
    requires least_power { 1 ≤ power }
    requires greatest_power { power ≤ 3 }
    ensures { IfOk result (λ weights. weights ≡ harmonic_weights size power) }
{
    Weights::harmonic(alloc, size, power)
}

/// Returns the prefix sum of each weight.
fn prefix_sums_of(alloc: Global, list: &[u64]) -> Result<Vec<u64>, Memory>
    requires { sum list.now ≤ 2 ^ 40 }
    ensures { IfOk result (λ sums. sums.items ≡ prefix_sums list.now) }
{
    let mut sums = Vec::with_capacity(alloc, list.len())?;
    let mut sum = 0u64;
    for weight in list {
        sum += *weight;
        sums.push(sum)?;
    }
    Ok(sums)
}

/// Returns the weight of a group of harmonic weights.
fn harmonic_weight(group: u32, power: u32) -> u64
    requires few { group < 4096 }
    requires greatest_power { power ≤ 3 }
    ensures { result ≡ harmonic_weight power group }
{
    (FIRST_HARMONIC_WEIGHT / u64::from(group + 1).pow(power)).max(1)
}
