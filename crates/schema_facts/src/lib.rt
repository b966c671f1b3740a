//! The layout of a schema, and the facts of its tables.
//!
//! A schema names tables, columns and word lists. Its layout has the places of tables and columns, and the words of the lists, in the names'
//! stead. Facts of a table, such as the cost of a row, follow from the layout and from the facts of the tables before it. This crate asks
//! for no rule: a schema that breaks some has a layout and facts as well.
#![tactic(auto)]

mod column_facts;
mod counts;
mod days;
mod facts;
mod field_costs;
mod field_sizes;
pub mod laws;
mod layout;
mod limits;
mod lineage;
mod null_costs;
mod numbers;
mod places;
mod word_lists;

pub use column_facts::{ColumnFacts, facts_among, facts_of_columns};
pub use counts::count;
pub use days::Days;
pub use facts::{NO_FACTS, TableFacts, delimiter_byte, fill_facts, greatest_line, line_size};
pub use field_sizes::size_of;
pub use layout::{Keys, Span, becomes_null, is_drawn_deal};
pub use limits::{MAX_ITEMS, MAX_WIDTH};
pub use lineage::{Lineage, lineage_at, span_of};
pub use numbers::Numbers;
pub use places::{columns_of, parent_via, place_of_column, place_of_table};
pub use word_lists::{Dictionaries, NamedWords};
