//! Jobs of the texts of tables: snapshots, what a unit changes, what undoes it, and samples.
#![tactic(auto)]

mod csv;
pub mod modes;
mod text_shelf;
