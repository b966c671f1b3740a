//! From the bytes of a schema's text to the schema.
//!
//! The keys of a kind are defined and read here once. Another document that declares columns reads them by the same calls.
#![tactic(auto)]

mod column_kind;
mod date;
mod document;
mod fault;
mod fits;
mod kind_name;
pub mod laws;
mod leaf_kind;
mod lists;
mod members;
mod read;
mod schema_key;
mod typed_member;
mod types;
mod wanted;
mod wrong_key;

pub use fault::{Expected, Place};
pub use kind_name::{KindName, LeafName, leaf_of_name};
pub use leaf_kind::read_leaf;
pub use lists::{Element, list_at, list_if_any};
pub use read::{ReadSchemaFault, read_schema};
pub use schema_key::SchemaKey;
pub use typed_member::{flag_if_any, str_if_any, text_at, whole_at};
pub use wanted::{Wanted, keys_of_kind};
pub use wrong_key::has_right_keys;
