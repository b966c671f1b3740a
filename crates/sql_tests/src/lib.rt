//! Tests of a store of SQLite, over databases in memory and in the system's files.
#![tactic(auto)]

#[cfg(test)]
mod files;
#[cfg(test)]
mod handed_on;
#[cfg(test)]
mod stores;
#[cfg(test)]
mod tables;
