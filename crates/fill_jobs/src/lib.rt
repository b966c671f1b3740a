//! Jobs that are made with packers of their own: statements of SQL, the lines of detail tables, and units that are played into a store.
#![tactic(auto)]

pub mod modes;
pub mod play;
pub mod sql;
mod unit_sources;
