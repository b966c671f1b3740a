//! From a schema's name to its plan, stage by stage: what is read, in which order, and which fault comes first.
#![tactic(auto)]

mod dictionary_files;
mod input_files;
mod inputs;
mod plan;

pub use dictionary_files::read_dictionaries;
pub use input_files::read_in_turn;
pub use inputs::{Inputs, UnreadInput};
pub use plan::plan_of;
