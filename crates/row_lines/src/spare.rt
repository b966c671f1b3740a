//! The buffers of runs, kept from package to package.

use crate::RunBuf;
use out_of_memory::Memory;
use std::alloc::Global;
use std::sync::{Mutex, MutexGuard};

/// The number of buffers that are kept: somewhat more than the workers that make packages of adjacent numbers at once.
const KEPT: u64 = 8;

/// The buffers of runs, each for one package at a time. Making one costs as much as some hundred short rows.
#[derive(Drop)]
pub struct SpareBufs {
    kept: Vec<Mutex<RunBuf>>,
}

impl SpareBufs {
    /// Makes the buffers. Makes none at `Memory`.
    pub fn new(alloc: Global) -> Result<SpareBufs, Memory> {
        let mut kept = Vec::new(alloc);
        for _ in 0..KEPT {
            kept.push(Mutex::new(RunBuf::new()))?;
        }
        Ok(SpareBufs { kept })
    }

    /// Returns the buffer for the package with a number, unless another package has it.
    pub fn of(&self, n: u64) -> Option<MutexGuard<'_, RunBuf>> {
        self.kept.get((n % KEPT) as usize)?.try_lock()
    }
}
