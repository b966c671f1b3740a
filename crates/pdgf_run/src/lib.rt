//! From the words of a command line to the files that the words ask for.
#![tactic(auto)]

mod carry_out;
mod command_line;
mod decide;
mod fill;
pub mod laws;
mod modes;
mod report;
mod run;

pub use command_line::run_program;
pub use refusals::{DictionaryCause, DictionaryFault, JobFault, PlanFault, Refusal};
pub use report::Report;
pub use request_words::{Format, Mode, OptionName, Request, UsageFault, read_words};
pub use run::pdgf;
pub use run_jobs::asked::default_package;
pub use run_jobs::joined::Joined;
pub use sample_tables::sample_schema;
