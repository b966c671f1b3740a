//! What a unit changes in each table: the rows that it deletes, the rows that it updates and the cohort that it inserts.
//!
//! A table is named by its place in the schema. A row is named by its ordinal, its place in the order of birth in its table. Both count
//! from 0. `life_intervals` has the rules: the simulation, and what its step to a unit does to the rows.
//!
//! A `Job` asks for the rows of tables at a unit, or for what the unit changes in them. Each part of a job is cut into shares, one for each
//! node. Each share is cut into packages. The two packers make each package by itself, from what is prepared once for the job
//! (`PreparedTables`).
#![tactic(auto)]

mod candidates;
mod deletions;
mod fates;
pub mod laws;
mod list_packer;
mod names;
mod needed;
mod parts;
mod prepared;
mod shares;
mod snapshot_packer;
mod table_rows;
mod units;
mod updates;

pub use list_packer::ListPacker;
pub use names::{push_ending, push_file_name};
pub use parts::{Content, Job, Places, places_of};
pub use prepared::PreparedTables;
pub use snapshot_packer::SnapshotPacker;
pub use units::{UnitRows, rows_of_unit, unit_rows};
