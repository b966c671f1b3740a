//! Rows in a store: what a `Keeper` does, statement by statement, and a keeper in memory.
//!
//! A `Keeper` keeps rows by the place of their table and their key. Each row has its line and its references. A table is named by its place in
//! the schema, from 0.
#![tactic(auto)]

mod keeper;
mod map_keeper;

pub use keeper::{KeepFailed, Keeper, RefTo};
pub use map_keeper::{KeeperFails, MapKeeper};
