//! The outside as the program sees it: files that are read, outputs that are written, and a gate that packages pass. Each has a
//! trait, whose clauses hold for every implementation, and a form in memory.
#![tactic(auto)]

mod fails;
mod faults;
mod files;
mod gate;
mod library;
mod mem_library;
mod mem_shelf;
mod message;
mod shelf;
mod sure;
mod whole;

pub use fails::{LibraryFails, ShelfFail, ShelfFails};
pub use faults::{Failed, ReadFault, WriteFailed};
pub use files::Files;
pub use gate::{Gate, OpenGate};
pub use library::Library;
pub use mem_library::MemLibrary;
pub use mem_shelf::MemShelf;
pub use message::Message;
pub use shelf::Shelf;
pub use sure::{SureLibrary, SureShelf};
pub use whole::{read_whole, write_all};
