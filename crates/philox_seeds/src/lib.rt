//! Philox4x32-10 and the tree of seeds that it makes: from a project's seed to a table, a column, a time unit and a row.
//!
//! The generator is from Salmon, Moraes, Dror and Shaw, "Parallel Random Numbers: As Easy as 1, 2, 3" (SC 2011). Every call is a
//! pure function of its arguments: it is total, keeps no state and takes no memory.
#![tactic(auto)]

mod batches;
mod block;
mod tree;

pub use batches::{draws, row_seeds, run_row_seeds, run_row_seeds_by_unit};
pub use block::philox4x32_10;
pub use tree::{
    child, column_seed, deal_seed, draw, key_order_seed, keyed_number, life_order_seed,
    reference_order_seed, row_seed, table_seed, unit_seed, update_order_seed,
};
