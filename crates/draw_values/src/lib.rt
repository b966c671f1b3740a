//! The fields that need no other row: the units of a row's birth and last change, their dates, drawn values, cases, and entries that
//! rows take in turn. A case is a drawn value whose kind depends on the row's field in a pick column. Any field can be drawn to be
//! null instead. A column that changes is drawn by the unit of the last change, any other column by the unit of birth.
//!
//! A table is named by its place in the schema, a column by its place in the table. A row is named by its ordinal, its place in the
//! order of birth in its table. All count from 0. A value is appended to a page as it is written (PostgreSQL's manual, "COPY", text
//! format). A run is up to 256 rows of a table. A column makes the fields of a run at once, as pieces, each with the byte after the
//! field. It also gives the days and the numbers of a run. Only `ColumnSeeds::new`,
//! `DrawnColumn::new` and `RunColumn::new` take memory.
#![tactic(auto)]

mod characters;
mod cohort_values;
mod column_seeds;
mod dates;
mod digits;
mod drawn_column;
mod fields;
mod fixed;
mod items;
mod kept;
pub mod laws;
mod leaf_numbers;
mod leaves;
mod numbers;
mod run_cases;
mod run_column;
mod run_items;
mod run_loops;
mod run_numbers;
mod run_pieces;
mod runs;
mod unit_dates;
mod uuids;
mod values;
mod weighted;
mod words;

pub use cohort_values::CohortValues;
pub use column_seeds::ColumnSeeds;
pub use dates::{day_piece, put_date};
pub use drawn_column::DrawnColumn;
pub use fields::is_null;
pub use fixed::put_number;
pub use items::ItemizedField;
pub use leaf_numbers::{Number, days_after, leaf_day, leaf_number};
pub use leaves::put_leaf;
pub use run_column::RunColumn;
pub use run_loops::{fill_kept, put_run_seeds};
pub use run_numbers::{fill_dates_of, fill_numbers};
pub use runs::{RUN_LIMIT, RunNumbers, RunRows};
pub use values::{Put, RowAt, put_value};
