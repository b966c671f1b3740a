//! Tests of the crates that make rows: `row_text`, `life_intervals`, `row_lines` and `update_box`. `value_tests` has those of
//! `draw_values`, and `statement_tests` those of `sql_lines`.
#![tactic(auto)]

#[cfg(test)]
mod child_tests;
#[cfg(test)]
mod fixtures;
#[cfg(test)]
mod life_tests;
#[cfg(test)]
mod line_tests;
#[cfg(test)]
mod text_tests;
#[cfg(test)]
mod told;
#[cfg(test)]
mod update_tests;
