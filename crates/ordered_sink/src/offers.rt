//! What is offered to a round of pages, and what comes back.

use line_pages::PageBuf;

/// A page with its number.
#[derive(Drop)]
pub struct Numbered {
    pub n: u64,
    pub page: PageBuf,
}

/// Why a page isn't taken. The page comes back as it was offered.
#[derive(Drop)]
pub enum Refused {
    /// The number isn't one of the round's.
    Beyond { page: PageBuf },
    /// A page was already offered under this number in this round.
    Taken { page: PageBuf },
}

/// Some pages of a round weren't handed out.
#[derive(Clone, Copy, Debug, PartialEq, Eq)]
pub struct Missing {
    /// The least number whose page wasn't handed out.
    pub first: u64,
}
