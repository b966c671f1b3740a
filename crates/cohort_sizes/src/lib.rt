//! How many rows of a table are born at each unit of time, and the unit at which each row is born.
//!
//! The rows that are born at one unit are a cohort. A row is named by its ordinal, its place in the order of birth in its table,
//! counted from 0. Units count from 0 too. Some rows are born at unit 0. At each later unit as many rows are born as the last rate
//! that has begun says.
#![tactic(auto)]

mod cohort;
mod cohorts;
pub mod laws;
mod rate;
mod stretch;

pub use cohort::Cohort;
pub use cohorts::Cohorts;
pub use rate::Rate;
