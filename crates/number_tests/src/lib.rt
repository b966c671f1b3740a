//! Tests of the crates below rows: seeds, the counter of steps, divisors, weights and permutations, by their public calls.
#![tactic(auto)]

#[cfg(test)]
mod checksums;
#[cfg(test)]
mod divisors;
#[cfg(test)]
mod permutations;
#[cfg(test)]
mod seeds;
#[cfg(test)]
mod steps;
#[cfg(test)]
mod weights;
