//! The lines of detail tables in packages: a `DetailPacker` makes those of rows of the parent, package by package. `apply_details` applies the changes
//! of a unit to a text of such lines.
#![tactic(auto)]

mod applied;
mod packer;
mod parent_lines;

pub use applied::{DetailApplyFault, apply_details};
pub use packer::{DetailPacker, PackedRows};
pub use parent_lines::parent_of;
