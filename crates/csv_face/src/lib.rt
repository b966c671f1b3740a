//! Rows as CSV: turns a text in COPY text form into the records that the crate `csv` writes, and back.
//!
//! A null field is `\N`. A text that begins with a backslash gets one more before it. Every other text stands as it is. So no two different
//! fields are written alike. Records are the crate's default ones: a comma between two fields, quotes round a field that needs them, a line
//! feed at the end. Names can stand as the first record. A delimiter is the byte between two fields of a line in COPY text form, a tab (9)
//! or a bar (124).
#![tactic(auto)]

mod alike;
mod fault;
pub mod laws;
mod read;
mod write;

pub use fault::CsvFault;
pub use read::{from_csv, from_csv_named};
pub use write::{names_text, to_csv};
