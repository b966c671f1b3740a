//! Tests of whole runs over detail tables: their lines, their streams applied, and the word lists that they cite.
#![tactic(auto)]

#[cfg(test)]
mod detail_lists;
#[cfg(test)]
mod details;
#[cfg(test)]
mod details_applied;
