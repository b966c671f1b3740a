//! The cohorts of a table.

ghost use Rattle.std.specs.Prelude.{◌≡◌, ◌+◌, ◌<◌, ◌≤◌, ◌^◌, IfOk, length};
ghost use Rattle.cohort_sizes.specs.Births.{LiesIn, birth, born_count, cohort_size, first_ordinal};
ghost use Rattle.cohort_sizes.specs.Rates.{AreRates, begin_of_rate};
ghost use Rattle.cohort_sizes.specs.Stretches.{AreStretches};

use crate::cohort::Cohort;
use crate::rate::Rate;
use crate::stretch::Stretch;
use fixed_divisors::FixedDivisor;
use out_of_memory::Memory;
use std::alloc::Global;
use std::marker::Model;

/// The cohorts of a table, of the units 0 to a last one. A contract sees the table's births and the last unit.
#[derive(Debug, Drop)]
pub struct Cohorts {
    rows: u64,
    rates: Vec<Rate>,
    stretches: Vec<Stretch>,
    last: u64,
}

impl Model for Cohorts {
    ghost use Rattle.cohort_sizes.specs.Kept.{BirthsUpTo, AreCohorts, births_up_to};

    ghost Value = { BirthsUpTo };

    ghost view = { λ c. births_up_to c.rows c.rates.items c.last };

    ghost invariant = { λ c. AreCohorts (births_up_to c.rows c.rates.items c.last) c.stretches.items };
}

impl Cohorts {
    /// Returns the cohorts of a table. `rows` rows are born at unit 0, and the others by rates. The first rate begins at unit 1,
    /// and each other rate after the one before it.
    pub fn new(alloc: Global, rows: u64, rates: Vec<Rate>, last: u64) -> Result<Cohorts, Memory>
        requires rates { AreRates rates.items }
        requires last { last ≤ 10000 }
        requires limit { born_count (record { rows = rows; rates = rates.items }) last ≤ 2 ^ 40 }
        ensures { IfOk result (λ cohorts. cohorts ≡ record { births = record { rows = rows; rates = rates.items }; last = last }) }
    {
        let stretches = stretches_of(alloc, rows, &rates, last)?;
        Ok(Cohorts {
            rows,
            rates,
            stretches,
            last,
        })
    }

    /// Returns how many rows are born in the units 0 to `unit`.
    #[inline]
    pub fn born(&self, unit: u64) -> u64
        requires { unit ≤ self.now.last }
        ensures count { result ≡ born_count self.now.births unit }
        ensures limit { result ≤ 2 ^ 40 }
    {
        if unit == 0 {
            return self.rows;
        }
        let stretch = self.at_unit(unit);
        stretch.first + stretch.size * (unit + 1 - stretch.from)
    }

    /// Returns the rows that are born at a unit.
    #[inline]
    pub fn cohort(&self, unit: u64) -> Cohort
        requires { unit ≤ self.now.last }
        ensures first { result.first ≡ first_ordinal self.now.births unit }
        ensures size { result.size ≡ cohort_size self.now.births unit }
        ensures limit { result.first + result.size ≤ 2 ^ 40 }
    {
        if unit == 0 {
            return Cohort {
                first: 0,
                size: self.rows,
            };
        }
        let stretch = self.at_unit(unit);
        Cohort {
            first: stretch.first + stretch.size * (unit - stretch.from),
            size: stretch.size,
        }
    }

    /// Returns the unit at which the row of an ordinal is born: the unit whose cohort has the row.
    #[inline]
    pub fn birth(&self, ordinal: u64) -> u64
        requires { ordinal < born_count self.now.births self.now.last }
        ensures unit { result ≡ birth self.now.births self.now.last ordinal }
        ensures within { result ≤ self.now.last }
        ensures lies { LiesIn self.now.births result ordinal }
    {
        if ordinal < self.rows {
            return 0;
        }
        let stretch = self.with_ordinal(ordinal);
        stretch.from + stretch.divisor.quotient(ordinal - stretch.first)
    }
}

impl Cohorts {
    ghost use Rattle.cohort_sizes.specs.Stretches.{IsStretch};

    /// Returns the stretch that has a unit.
    #[inline]
    fn at_unit(&self, unit: u64) -> Stretch
        requires some { 1 ≤ unit }
        requires unit { unit ≤ self.now.last }
        ensures stretch { IsStretch self.now.births result }
        ensures begun { result.from ≤ unit }
        ensures not_ended { unit < result.until }
    {
        for stretch in &self.stretches {
            if unit < stretch.until {
                return *stretch;
            }
        }
        unreachable!()
    }

    /// Returns the stretch in which the row of an ordinal is born.
    #[inline]
    fn with_ordinal(&self, ordinal: u64) -> Stretch
        requires late { self.now.births.rows ≤ ordinal }
        requires born { ordinal < born_count self.now.births self.now.last }
        ensures stretch { IsStretch self.now.births result }
        ensures begun { result.first ≤ ordinal }
        ensures not_ended { ordinal < result.end }
    {
        for stretch in &self.stretches {
            if ordinal < stretch.end {
                return *stretch;
            }
        }
        unreachable!()
    }
}

/// Returns the stretches of a table's births, from unit 1 to a last one.
fn stretches_of(alloc: Global, rows: u64, rates: &[Rate], last: u64) -> Result<Vec<Stretch>, Memory>
    requires rates { AreRates rates.now }
    requires last { last ≤ 10000 }
    requires limit { born_count (record { rows = rows; rates = rates.now }) last ≤ 2 ^ 40 }
    ensures { IfOk result (λ stretches. AreStretches (record { rows = rows; rates = rates.now }) (last + 1) stretches.items) }
{
    let mut stretches = Vec::with_capacity(alloc, rates.len())?;
    let mut first = rows;
    for place in 0..rates.len() {
        let Rate { from, rows: size } = rates[place];
        let until = end_of_rate(rates, place, last);
        if from < until {
            let end = first + size * (until - from);
            stretches.push(Stretch {
                from,
                until,
                first,
                end,
                size,
                divisor: FixedDivisor::new(size.max(1)),
            })?;
            first = end;
        }
    }
    Ok(stretches)
}

/// Returns the unit after the last one of the rate at a place, up to the unit after `last`.
fn end_of_rate(rates: &[Rate], place: usize, last: u64) -> u64
    requires place { place < length rates.now }
    requires last { last ≤ 10000 }
    ensures { result ≡ begin_of_rate rates.now (place + 1) last }
{
    match rates.get(place + 1) {
        Some(next) => next.from.min(last + 1),
        None => last + 1,
    }
}
