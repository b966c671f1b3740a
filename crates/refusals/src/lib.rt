//! Why a request isn't carried out: each refusal with its exit status and its message.
#![tactic(auto)]

mod file_name;
mod message;
mod refusal;

pub use file_name::FileName;
pub use message::{keeper_failed_message, write_failed_message};
pub use refusal::{
    DetailsCause, DictionaryCause, DictionaryFault, InputCause, InputFault, JobFault, LineFault,
    LineReason, PlanFault, Refusal,
};
