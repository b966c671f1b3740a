//! Permutations of 0..n-1, with inverses. Each is made from a number n and a seed, in no memory or by tables of its rounds.
//!
//! A rectangle of a rows of b numbers each splits a number into two halves. Six rounds of Philox move the halves in turn. If the
//! resulting number isn't below n, it is mixed again (Black and Rogaway, "Ciphers with Arbitrary Finite Domains", CT-RSA 2002).
#![tactic(auto)]

mod forms;
mod fours;
mod halves;
mod kept;
pub mod laws;
mod network;
mod order;
mod shape;
mod table_network;
mod tables;

pub use kept::KeptOrders;
pub use order::Order;
pub use shape::Shape;
