//! The theorem of detail tables: what the changes of a unit make of a table's text, and which row each line names.
#![tactic(auto)]

pub mod laws;
