//! Packers, one after the other.

ghost use Rattle.std.specs.Prelude.{◌≡◌, ◌<◌, ◌≤◌, ◌+◌, ◌++◌, ◌∷◌, ◌^◌, [], length, IfOk, OnErr, OnOk};
ghost use Rattle.std.specs.List.{sum_by};
ghost use Rattle.range_workers.specs.Marks.{AreMarksOf, due_files};
ghost use Rattle.update_box.specs.Cuts.{greatest, text_in};
ghost use Rattle.run_jobs.specs.Joined.{joined_text, part_files};

use line_pages::PageBuf;
use out_of_memory::Memory;
use range_workers::{Marks, Packer};
use schema_model::Texts;
use std::alloc::Global;

/// Packers of one type, joined. The packages are those of the first packer, then those of the next, and so on. The room is the greatest of
/// theirs, and 0 if there is none.
#[derive(Drop)]
pub struct Joined<P: Packer + Drop> {
    parts: Vec<P>,
    count: u64,
    room: usize,
    ghost counted: { count ≡ sum_by P.count parts.items },
    ghost few: { count ≤ 2 ^ 60 },
    ghost roomy: { room ≡ greatest P.room parts.items },
}

impl<P: Packer + Drop> Joined<P> {
    /// Returns a list of no packers.
    pub fn new(alloc: Global) -> Joined<P>
        ensures { result.parts.items ≡ [] }
    {
        Joined {
            parts: Vec::new(alloc),
            count: 0,
            room: 0,
        }
    }

    /// Appends a packer. The counts of packages together must be at most 2^60. If memory runs out, the packers are as before.
    pub fn push(&mut self, packer: P) -> Result<(), Memory>
        requires { sum_by P.count self.old.parts.items + P.count packer ≤ 2 ^ 60 }
        ensures ok { OnOk result (self.new.parts.items ≡ self.old.parts.items ++ packer ∷ []) }
        ensures err { OnErr result (self.new.parts.items ≡ self.old.parts.items) }
    {
        let count = packer.count();
        let room = packer.room();
        self.parts.push(packer)?;
        self.count += count;
        self.room = self.room.max(room);
        Ok(())
    }

    /// Returns the marks that give each packer a file of its own, of the name at its place. There must be as many names as packers, and at
    /// least one. Returns `Memory` if memory runs out.
    pub fn marks(&self, alloc: Global, names: &Texts) -> Result<Marks, Memory>
        requires alike { length names.now ≡ length self.now.parts.items }
        requires some { 0 < length names.now }
        ensures marks { IfOk result (AreMarksOf (sum_by P.count self.now.parts.items)) }
        ensures files { IfOk result (λ marks. due_files (text_in P.count P.text self.now.parts.items) (sum_by P.count self.now.parts.items) marks
            ≡ part_files P.count P.text names.now self.now.parts.items) }
    {
        let mut marks = Marks::new(alloc);
        let mut first = 0;
        for (place, part) in self.parts.iter().enumerate() {
            marks.push(first, names.get(place).as_str())?;
            first += part.count();
        }
        Ok(marks)
    }
    /// Returns the one mark that gives all packers one file. Returns `Memory` if memory runs out.
    pub fn mark_of_all(&self, alloc: Global, name: &str) -> Result<Marks, Memory>
        ensures marks { IfOk result (AreMarksOf (sum_by P.count self.now.parts.items)) }
        ensures files { IfOk result (λ marks. due_files (text_in P.count P.text self.now.parts.items) (sum_by P.count self.now.parts.items) marks
            ≡ record { name = name.now; bytes = joined_text P.count P.text self.now.parts.items } ∷ []) }
    {
        let mut marks = Marks::new(alloc);
        marks.push(0, name)?;
        Ok(marks)
    }
}

/// Returns the packer that makes package `n` of all packers in turn, and the package's number in that packer.
fn found<P: Packer>(parts: &[P], n: u64) -> (&P, u64)
    requires { n < sum_by P.count parts.now }
    ensures number { result.1 < P.count result.0.now }
    ensures text { P.text result.0.now result.1 ≡ text_in P.count P.text parts.entry.now n }
    ensures room { P.room result.0.now ≤ greatest P.room parts.entry.now }
{
    let mut number = n;
    for part in parts {
        let count = part.count();
        if number < count {
            return (part, number);
        }
        number -= count;
    }
    unreachable!()
}

impl<P: Packer + Drop> Packer for Joined<P> {
    ghost text = { λ joined. text_in P.count P.text joined.parts.items };

    ghost count = { λ joined. sum_by P.count joined.parts.items };

    ghost room = { λ joined. greatest P.room joined.parts.items };

    fn count(&self) -> u64 {
        self.count
    }

    fn room(&self) -> usize {
        self.room
    }

    fn pack(&self, n: u64, page: &mut PageBuf) {
        let (part, number) = found(self.parts.as_slice(), n);
        part.pack(number, page);
    }
}
