//! The spelling of a field in a line of text: COPY text form (PostgreSQL's manual, "COPY", text format).
//!
//! A null field is `\N`. In a text a backslash is written `\\`, and the bytes 8 to 13 are written `\b`, `\t`, `\n`, `\v`, `\f`
//! and `\r`. If the delimiter is a bar, a bar is written `\|`. Every other byte stands for itself. A delimiter, the byte between
//! two fields, is a tab (9) or a bar (124). Sizes are in bytes. Only texts that are kept as they are written, and fields that are
//! read back, take memory.
#![tactic(auto)]

mod escapes;
mod field_list;
mod fields;
pub mod laws;
mod lines;
mod split_lines;
mod written_texts;

pub use field_list::Fields;
pub use fields::{field_size, put_field, put_null, put_piece};
pub use lines::{LineAt, next_line};
pub use split_lines::{SplitFault, split_line};
pub use written_texts::WrittenTexts;
