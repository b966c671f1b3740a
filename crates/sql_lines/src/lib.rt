//! Rows as statements of SQL, which a database with foreign keys runs one by one.
//!
//! A table is named by its place in the schema. A row is named by its ordinal, its place in the order of birth in its table. Both count from
//! 0. The statements insert the rows of a table at a unit, or delete, update and insert what the unit changes. A `StatementPacker` makes
//! them, package by package, from the lines of the rows. A script has the parts of tables in an order in which no reference ever leads to a row
//! that isn't there.
#![tactic(auto)]

mod bare;
mod frame;
pub mod laws;
mod literals;
mod packer;
mod parts;
mod reach;
mod rows;
mod spare;
mod stated;
mod written;

pub use literals::put_literal;
pub use packer::StatementPacker;
pub use reach::statement_reach;
pub use stated::Stated;
