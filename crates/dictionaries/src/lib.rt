//! Word lists: texts with weights, read from bytes.
//!
//! The bytes are lines in UTF-8, after an optional byte order mark. A line ends with LF or the end of the bytes. One CR directly
//! before that end is dropped, and empty lines are skipped. A line is a text, whose weight is 1, or a text, a tab and a weight. The
//! first tab of the line divides them. A text has at most 255 bytes, and can be empty if a tab follows. A weight has one to seven
//! decimal digits and a value from 1 to 1,000,000. There are 1 to 1,000,000 entries.
#![tactic(auto)]

mod dictionary;
mod entries;
mod fault;
pub mod laws;
mod line;
mod read;

pub use dictionary::Dictionary;
pub use fault::DictFault;
pub use read::read_dictionary;
