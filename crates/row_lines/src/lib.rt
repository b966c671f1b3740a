//! The lines of rows, as they are written into a page. A line has the fields of a row, with delimiters between them and a line feed
//! after them (PostgreSQL's manual, "COPY", text format).
//!
//! A table is named by its place in the schema. A row is named by its ordinal, its place in the order of birth in its table, or by
//! its index in its cohort, the rows that are born at one unit. All count from 0. The text of a table is the lines of its rows.
//! `laws` puts it together from the texts of its cohorts. Only `TableLines::new` takes memory.
#![tactic(auto)]

mod bytes;
mod cohort_fields;
mod cohort_lines;
mod derived;
mod kept;
pub mod laws;
mod reports;
mod rows;
mod run_buf;
mod run_columns;
mod run_dates;
mod run_keys;
mod run_lines;
mod run_lookups;
mod run_parents;
mod run_totals;
mod runs;
mod spare;
mod still_row;
mod table_lines;

pub use cohort_lines::CohortLines;
pub use derived::{Join, joined, start_of};
pub use kept::{keep, put_range};
pub use reports::row_report;
pub use rows::{live, put_key, put_line};
pub use run_buf::RunBuf;
pub use run_keys::{KEY_LINE, put_keys};
pub use run_lines::are_all;
pub use run_totals::join_all;
pub use runs::RunLines;
pub use spare::SpareBufs;
pub use still_row::StillRow;
pub use table_lines::{TableLines, are_small};
