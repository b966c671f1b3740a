//! Why a database didn't do what was asked.

use sqlite::Error;
use std::alloc::{AllocError, AllocFailed};
use std::io;

/// The database refused a statement, wasn't opened or isn't empty, the system refused a call, or memory ran out.
#[derive(Clone, Copy, Debug, PartialEq, Eq)]
pub struct Refused;

impl From<Error> for Refused {
    fn from(_error: Error) -> Refused {
        Refused
    }
}

impl From<io::Error> for Refused {
    fn from(_error: io::Error) -> Refused {
        Refused
    }
}

impl From<AllocError> for Refused {
    fn from(_error: AllocError) -> Refused {
        Refused
    }
}

impl<T: Drop> From<AllocFailed<T>> for Refused {
    fn from(_failed: AllocFailed<T>) -> Refused {
        Refused
    }
}
