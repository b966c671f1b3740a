//! Workers that claim the packages of a job and make them side by side.
#![tactic(auto)]

mod claims;
mod crew;
mod faults;
mod job;
pub mod laws;
mod makers;
mod marks;
mod packer;
mod view;
mod work;
mod workshop;

pub use claims::{ClaimSeat, Claims};
pub use faults::RunFault;
pub use job::run;
pub use marks::Marks;
pub use packer::Packer;
pub use view::View;
