//! The rules of a schema, the word lists that it cites, and the plan of an accepted one.
//!
//! This crate defines which schemas keep the rules, over their layout and their facts, and `schema_check` tries them. A plan is made from a
//! schema that keeps all rules. It holds what doesn't change from row to row.
#![tactic(auto)]

mod beside;
mod births;
mod broken;
mod cited_names;
mod plan;
mod ready;
mod ready_columns;
mod ready_leaves;
mod ready_parts;
mod ready_words;
mod rules;
mod site;

pub use births::cohort_size;
pub use broken::Broken;
pub use cited_names::{CitedNames, copied_names, is_citable_kind, is_supplied_kind, leaves_of};
pub use plan::Plan;
pub use ready::{
    ReadyAfter, ReadyColumn, ReadyKind, ReadyLeaf, ReadyList, ReadyLookup, ReadyPart,
    ReadyReference, ReadyUnitDate,
};
pub use ready_words::ReadyWords;
pub use rules::Rule;
pub use site::Site;
