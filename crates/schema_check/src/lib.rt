//! The rules of a schema.
//!
//! A schema can be read whole and still make no sense. `check` tries its rules in their order. It returns the schema's plan, or the first
//! broken rule at its first site.
#![tactic(auto)]

mod candidate;
mod checker;
mod column_check;
mod column_rules;
mod later_date_rules;
pub mod laws;
mod leaf_rules;
mod lookup_rules;
mod names;
mod padding_rules;
mod phase_rules;
mod reference_rules;
mod rules;
mod total_rules;
mod unit_date_rules;

pub use checker::{CheckFault, check, citations};
pub use column_check::{are_columns_supplied, column_citations, keeps_column_rules};
pub use leaf_rules::is_range;
pub use lookup_rules::has_still_column;
pub use names::is_name;
