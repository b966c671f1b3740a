//! Texts that are made of others: what units change is applied to them, or undone.
#![tactic(auto)]

pub mod modes;
pub mod replay;
