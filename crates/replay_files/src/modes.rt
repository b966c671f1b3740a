//! The modes whose jobs stand here, each in a file of its own.

pub mod apply;
pub mod details_apply;
pub mod revert;
