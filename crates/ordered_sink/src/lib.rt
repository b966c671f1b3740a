//! Pages in order: they are offered under numbers in any order, and handed out in the order of the numbers.
#![tactic(auto)]

pub mod laws;
mod offers;
mod ordered;

pub use offers::{Missing, Numbered, Refused};
pub use ordered::Ordered;
