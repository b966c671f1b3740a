//! A table's text, and what streams make of it: lines that are dropped, replaced in place and appended. Each line is known by its key.
//!
//! A line is a line body of fields with a line feed after it. Its key is its first field, or its first two. Lines stay where they stand in
//! the bytes.
#![tactic(auto)]

mod applier;
mod fault;
mod in_turn;
mod key_fields;
mod key_table;
mod kind;
pub mod laws;
mod stream;

pub use applier::Applier;
pub use fault::ApplyFault;
pub use in_turn::{TurnFault, apply_in_turn, apply_slices};
pub use key_fields::KeyFields;
pub use key_table::KeyTable;
pub use kind::InputKind;
pub use stream::{key_size, read_table};
