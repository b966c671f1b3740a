//! How the group of a number is found: by a table, or by the first groups of slices and a search from there on.

ghost use Rattle.std.specs.Prelude.{◌≡◌, ◌<◌, ◌≤◌, ◌^◌, IfOk, length, sum};
ghost use Rattle.weight_tables.specs.Weights.{Selects};
ghost use Rattle.weight_tables.specs.PrefixSums.{ArePrefixSums, weights_of};
ghost use Rattle.weight_tables.specs.Finders.{ArePassed, IsGuide, IsTable};

use out_of_memory::Memory;
use std::alloc::Global;

/// The greatest total of weights for which a table has the groups of all numbers.
const TABLE: u64 = 1024;

/// The number of slices that is always allowed. If there are few groups, most slices lie within one group, and a search hardly goes
/// on.
const SLICES: u64 = 2048;

/// The shift at which all numbers are one slice. Numbers are below 2^40.
const ONE_SLICE: u32 = 40;

/// Returns the last prefix sum, which is the total.
#[inline]
pub(crate) fn last_sum(sums: &[u64]) -> u64
    requires { ArePrefixSums sums.now }
    ensures exact { result ≡ sum (weights_of sums.now) }
    ensures some { 1 ≤ result }
    ensures small { result ≤ 2 ^ 40 }
{
    sums[sums.len() - 1]
}

/// Returns the group that a number selects, searched from the group `first` on. The number must be past all groups before `first`.
#[inline]
pub(crate) fn search_from(sums: &[u64], first: usize, x: u64) -> usize
    requires sums { ArePrefixSums sums.now }
    requires number { x < sum (weights_of sums.now) }
    requires passed { ArePassed (weights_of sums.now) first x }
    ensures { Selects (weights_of sums.now) x result }
{
    let mut group = first;
    while sums[group] <= x {
        group += 1;
    }
    group
}

/// Returns the group of each number if there are few numbers. Else returns an empty table.
pub(crate) fn group_table(alloc: Global, sums: &[u64]) -> Result<Vec<u16>, Memory>
    requires { ArePrefixSums sums.now }
    ensures { IfOk result (λ table. IsTable (weights_of sums.now) table.items) }
{
    let total = last_sum(sums);
    if total > TABLE {
        return Ok(Vec::new(alloc));
    }
    let mut table = Vec::with_capacity(alloc, total as usize)?;
    let mut group = 0;
    for x in 0..total {
        group = search_from(sums, group, x);
        table.push(group as u16)?;
    }
    Ok(table)
}

/// Returns the least shift with at most as many slices as there are groups, or as `SLICES`. If a table has the group of each
/// number, one slice is enough.
pub(crate) fn slice_shift(sums: &[u64], searched: bool) -> u32
    requires { ArePrefixSums sums.now }
    ensures { result ≤ 40 }
{
    if !searched {
        return ONE_SLICE;
    }
    let last = last_sum(sums) - 1;
    let most = SLICES.max(sums.len() as u64);
    for shift in 0..ONE_SLICE {
        if last >> shift < most {
            return shift;
        }
    }
    ONE_SLICE
}

/// Returns, for each slice of 2^shift numbers, the group that its first number selects.
pub(crate) fn first_groups(alloc: Global, sums: &[u64], shift: u32) -> Result<Vec<u32>, Memory>
    requires sums { ArePrefixSums sums.now }
    requires shift { shift ≤ 40 }
    ensures { IfOk result (λ firsts. IsGuide (weights_of sums.now) firsts.items shift) }
{
    let slices = (last_sum(sums) - 1 >> shift) + 1;
    let mut firsts = Vec::with_capacity(alloc, slices as usize)?;
    let mut group = 0;
    for slice in 0..slices {
        group = search_from(sums, group, slice << shift);
        firsts.push(group.min(u32::MAX as usize) as u32)?;
    }
    Ok(firsts)
}
