//! The schema of a sample: customers, who live and change, their orders, and the lines of the orders. A size says how many there are. This crate
//! has the schema's text, the schema, and its plan. The schema breaks no rule, so it always has a plan.
#![tactic(auto)]

pub mod laws;
mod plan;
mod schema;
mod text;

pub use plan::sample_plan;
pub use text::sample_schema;
