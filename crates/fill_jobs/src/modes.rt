//! The modes whose jobs stand here, each in a file of its own.

pub mod details;
pub mod play;
