//! What a request comes to: jobs, and what all modes need to make them.
//!
//! A job is all that is to be written for a request. `specs/Jobs` says which files it is due, and what makes it one that can be carried out. What
//! several modes need stands here too: what is asked of tables, the names of files and what they begin with, the declaration of a detail table, and
//! packers that are joined.
#![tactic(auto)]

pub mod asked;
pub mod csv_texts;
pub mod details;
pub mod file_names;
pub mod headings;
pub mod job;
pub mod joined;
pub mod names;
pub mod numbers;
pub mod outputs;
