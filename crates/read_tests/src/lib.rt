//! Tests of what is read before any rule is tried: the types of schemas, the reading of a text, and word lists.
#![tactic(auto)]

#[cfg(test)]
mod model;
#[cfg(test)]
mod reading;
#[cfg(test)]
mod word_lists;
#[cfg(test)]
mod wrong_keys;
