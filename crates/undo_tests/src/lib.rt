//! Tests of undo texts, and of tables to which they are applied, by public calls.
#![tactic(auto)]

#[cfg(test)]
mod pack_tests;
#[cfg(test)]
mod revert_tests;
