//! The outside over the system: files that are read, files that are written, and the standard output.
#![tactic(auto)]

mod file_library;
mod file_shelf;
mod last_fault;
mod output;
mod places;
mod progress;
mod progress_shelf;
mod reading;
mod syncing;
mod writing;

pub use file_library::FileLibrary;
pub use file_shelf::FileShelf;
pub use last_fault::LastFault;
pub use progress_shelf::ProgressShelf;
pub use syncing::Syncing;
