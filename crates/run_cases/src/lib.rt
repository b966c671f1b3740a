//! What the tests of whole runs share: schemas, and runs of the program over files in memory.
#![tactic(auto)]

mod run;
pub mod schemas;

pub use run::{
    DONE, Held, ONE_AT_2, REFUSED, Run, STOPPED, TWO, Unmet, check_run_over, check_runs,
    idle_keeper, library_of, words_of,
};
