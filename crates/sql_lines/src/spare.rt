//! The buffers of statements, kept from package to package.

use crate::rows::StatementBuf;
use out_of_memory::Memory;
use std::alloc::Global;
use std::sync::{Mutex, MutexGuard};

/// The number of buffers that are kept: somewhat more than the workers that make packages of adjacent numbers at once.
const KEPT: u64 = 8;

/// The buffers of statements, each for one package at a time. Making one costs as much as some hundred short statements.
#[derive(Drop)]
pub(crate) struct StatementBufs {
    kept: Vec<Mutex<StatementBuf>>,
}

impl StatementBufs {
    /// Makes the buffers. Makes none at `Memory`.
    pub(crate) fn new(alloc: Global) -> Result<StatementBufs, Memory> {
        let mut kept = Vec::new(alloc);
        for _ in 0..KEPT {
            kept.push(Mutex::new(StatementBuf::new()))?;
        }
        Ok(StatementBufs { kept })
    }

    /// Returns the buffer for the package with a number, unless another package has it.
    pub(crate) fn of(&self, n: u64) -> Option<MutexGuard<'_, StatementBuf>> {
        self.kept.get((n % KEPT) as usize)?.try_lock()
    }
}
