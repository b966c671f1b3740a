//! The buffer in which lines are put together: a page with a fixed room. Pieces are short texts that are copied onto a page as fast as
//! numbers. Rows of pieces, column by column, are put together on a page.
#![tactic(auto)]

mod digits;
mod numbers;
mod padding;
mod page_buf;
mod piece;
mod rows;

pub use digits::Digits;
pub use page_buf::PageBuf;
pub use piece::Piece;
