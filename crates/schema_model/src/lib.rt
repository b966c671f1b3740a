//! The types of a schema: the content of a schema's text, as plain data.
//!
//! A schema has a seed, a last unit, a delimiter and tables. A table has rows and columns. A column has a kind, which
//! says what its fields hold. These types don't say which schemas are accepted: a value of theirs can break any rule.
#![tactic(auto)]

mod column;
mod sequence;
mod table;
mod text;

pub use column::{Column, Deal, Kind, Leaf, OnDelete, Part, Window};
pub use sequence::{Columns, Leaves, Longs, Parts, Phases, Sequence, Tables, Texts};
pub use table::{Delimiter, Life, Phase, Schema, Table};
pub use text::Text;
