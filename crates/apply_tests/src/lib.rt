//! Tests of lines that are read back, of streams that are applied to a table, and of rows in CSV, by public calls.
#![tactic(auto)]

#[cfg(test)]
mod csv_tests;
#[cfg(test)]
mod line_tests;
#[cfg(test)]
mod pair_tests;
#[cfg(test)]
mod stream_tests;
#[cfg(test)]
mod turn_tests;
