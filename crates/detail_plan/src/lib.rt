//! The declaration of a detail table: lines that hang on the rows of one table of a schema. Each line has its row's key and a number.
//!
//! `read_detail` reads a TOML document, and `check_detail` tries its rules over a schema's plan. A detail table is read, checked and made
//! ready as one more table of the schema. The crate `detail_rows` defines what the lines hold.
#![tactic(auto)]

mod beside;
mod check;
mod citations;
mod columns;
mod detail;
mod kind_name;
pub mod laws;
mod plan;
mod read;
mod rules;
mod wanted;

pub use check::{DetailFault, check_detail};
pub use citations::detail_citations;
pub use detail::{Detail, DetailColumn, DetailColumns, DetailKind};
pub use plan::DetailPlan;
pub use read::{DetailReadFault, read_detail};
