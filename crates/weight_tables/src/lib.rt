//! Weighted choice: groups that each take as many numbers as their weights, and the group that a number selects.
//!
//! Groups are places in a list, counted from 0. Weights are whole numbers from 1 on. The sum of a list's weights is at most 2^40.
#![tactic(auto)]

mod finders;
pub mod laws;
mod weights;

pub use weights::{Weights, harmonic};
