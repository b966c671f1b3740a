//! The births, deaths, last changes, parents and keys of a table's rows. A death can come by the row's own life or with a parent.
//! Each answer is for one ordinal and takes constant time.
//!
//! The rows that are born at one unit are a cohort. A row is named by its ordinal, its place in the order of birth in its table, or
//! by its index, its place in its cohort. Both count from 0. `specs/` has the rules of these numbers and the simulation that
//! defines the generated data: lists of rows, stepped unit by unit. `laws` has the laws of the simulation. One of them says that
//! the simulation of sound tables is its closed form, with lives, updates and both kinds of references.
//!
//! A table is named by its place in the schema, counted from 0. `Rows` are a plan's rows, found with the orders that are kept for a
//! job, or with none. Only `JobOrders::new` and the lists to which rows are appended take memory.
#![tactic(auto)]

mod asked;
mod births;
mod children;
mod found;
mod found_at;
mod job_orders;
mod kept;
mod keys;
pub mod laws;
mod lives;
mod orders;
mod parents;
mod rows;
mod run_ends;
mod run_parents;
mod runs;
mod wanted;
mod window;

pub use births::{birth, born, cohort};
pub use children::{Block, child_block, deal_number, number_block};
pub use cohort_sizes::Cohort;
pub use found::{FoundRow, find, row_of_cohort};
pub use job_orders::JobOrders;
pub use keys::{key, row_of_key};
pub use lives::{Survival, last_change, own_death, survival_at};
pub use parents::{death, held_parent, parent};
pub use rows::Rows;
pub use run_ends::MOST_ROWS;
