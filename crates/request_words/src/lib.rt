//! What the words of a command line ask for.
#![tactic(auto)]

mod command;
mod form;
mod numbers;
mod options;
mod request;
mod usage;
mod words;

pub use usage::{Format, Header, Mode, OptionName, Request, UsageFault};
pub use words::read_words;
