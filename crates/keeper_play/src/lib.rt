//! Units played into a store: rows and the references between them, statement by statement.
//!
//! `play_unit` makes a unit's statements on a `Keeper`: it puts the updated rows, drops the deleted ones from the last table to the first, and
//! puts the inserted ones. So each reference leads to a row after every statement (`laws`).
//!
//! A table is named by its place in the schema. A row is named by its ordinal, its place in the order of birth in its table. Both count from
//! 0.
#![tactic(auto)]

pub mod laws;
mod play;
mod refs;
mod source;

pub use play::{play_rows, play_unit};
pub use source::UnitSource;
