//! Undo texts, which undo what a unit did to a table, and tables to which they are applied.
//!
//! An undo text has a line for each row that the unit changed. It drops the inserted lines, sets the updated lines to what they were, and
//! adds the deleted lines at their old places.
//!
//! A line is a line body of fields with a line feed after it. A line of an undo text has a word, the place if it adds a line, and the fields
//! of the line that it drops, sets or adds. The first of these fields is the key. A table is named by its place in the schema. A row is named
//! by its ordinal, its place in the order of birth in its table. Both count from 0. Lines that are read stay where they stand in the bytes.
#![tactic(auto)]

mod changes;
mod fault;
mod in_turn;
pub mod laws;
mod part;
mod reverter;
mod row_places;
pub mod text_laws;
mod undo_lines;
mod undo_packer;
mod weaver;

pub use changes::Changes;
pub use fault::RevertFault;
pub use in_turn::{RevertedAt, revert_in_turn};
pub use reverter::Reverter;
pub use row_places::{count_living, places};
pub use undo_packer::{UndoPacker, WORD_AND_PLACE};
