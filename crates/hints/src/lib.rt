//! Hints: what a message of the program means here, in lines for people that stand after it.
//!
//! A hint is worked out after the run, from the words, the message and files that are read anew. Where nothing more is sure, nothing
//! is told. The texts stand by their group: the words (`usage`), files (`files`), keys (`keys`, `details`), rules (`rules`, `numbers`)
//! and ranges (`range`).
#![tactic(auto)]

mod details;
mod ended;
mod files;
mod grouped;
mod keys;
mod lines;
mod numbers;
mod range;
mod rules;
mod schema;
mod shown;
mod usage;

pub use ended::{Ended, tell_hints};
pub use shown::Setting;
