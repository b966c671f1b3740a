//! The lines of a detail table for rows of its parent: for each row its key, a number and the fields of the columns. `DetailLines` makes them, side by
//! side where they can be made so. `specs/Lines` says what lines are.
#![tactic(auto)]

mod detail_lines;
mod line;
mod line_columns;
mod line_mixed;
mod line_parents;
mod line_run;
mod line_runs;
mod line_totals;
mod parent_row;
mod shown;

pub use detail_lines::{DetailLines, LineKind, ParentAt};
pub use line_run::LineBuf;
pub use parent_row::ParentRows;
