//! Tests of detail tables by public calls: their declarations, their lines, and the changes of units.
#![tactic(auto)]

#[cfg(test)]
mod apply_tests;
#[cfg(test)]
mod fixtures;
#[cfg(test)]
mod pack_tests;
#[cfg(test)]
mod read_tests;
#[cfg(test)]
mod rule_tests;
#[cfg(test)]
mod word_list_tests;
