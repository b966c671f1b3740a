//! Who makes the packages of a job.

ghost use Rattle.std.specs.Prelude.{◌≡◌, ◌+◌, ◌≤◌, ◌<◌, IfOk, List, ℕ};
ghost use Rattle.range_workers.specs.Makers.{HasText, IsReadyToMake, text_made};

use crate::Packer;
use crate::crew::Crew;
use crate::work::make_page;
use line_pages::PageBuf;
use out_of_memory::Memory;
use pd_outside::Gate;
use std::alloc::Global;
use std::thread::Threads;

/// The caller itself on one page, or several workers in threads.
pub(crate) enum Makers {
    Alone { page: PageBuf },
    Several { crew: Crew },
}

impl Drop for Makers {
    fn drop(self) {
        match self {
            Makers::Alone { page } => drop(page),
            Makers::Several { crew } => drop(crew),
        }
    }
}

impl Makers {
    /// Makes makers with pages of `room` bytes, who made no package yet. Returns `Memory` if memory runs out.
    pub(crate) fn new(alloc: Global, workers: u32, room: usize) -> Result<Makers, Memory>
        requires some { 1 ≤ workers }
        requires few { workers ≤ 64 }
        ensures { IfOk result (λ makers. (text : ℕ → List ℕ) (count : ℕ) → IsReadyToMake text count room 0 makers) }
    {
        if workers == 1 {
            let page = PageBuf::with_room(alloc, room)?;
            return Ok(Makers::Alone { page });
        }
        let crew = Crew::new(alloc, workers as usize, room)?;
        Ok(Makers::Several { crew })
    }

    /// Makes the next package, number `n`, after it has entered the gate.
    pub(crate) fn turn<R: Threads + Sync, P: Packer + Sync, G: Gate + Sync>(
        &mut self,
        rt: &R,
        packer: &P,
        gate: &G,
        n: u64,
    )
        requires number { n < P.count packer.now }
        requires ready { IsReadyToMake (P.text packer.now) (P.count packer.now) (P.room packer.now) n self.old }
        ensures ready { IsReadyToMake (P.text packer.now) (P.count packer.now) (P.room packer.now) (n + 1) self.new }
        ensures text { text_made self.new ≡ P.text packer.now n }
        ensures some { HasText self.new }
    {
        match self {
            Makers::Alone { page } => make_page(packer, gate, n, page),
            Makers::Several { crew } => crew.turn(rt, packer, gate, n),
        }
    }

    /// Returns the text of the package that was made last.
    pub(crate) fn text(&self) -> &[u8]
        requires { HasText self.now }
        ensures { result.now ≡ text_made self.now }
    {
        match self {
            Makers::Alone { page } => page.text(),
            Makers::Several { crew } => crew.text(),
        }
    }
}
