//! The modes whose jobs stand here, each in a file of its own.

pub mod sample;
pub mod snapshot;
pub mod undo;
pub mod unit;
