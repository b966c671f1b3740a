//! The files that are written.

ghost use Rattle.std.specs.Prelude.{◌≡◌, ◌<◌, ◌≤◌, ℕ, Bool, true, false, Option, length, take, IsTrue, IfOk, IfSome, OnOk, OnErr, is_ok, is_err, is_some};
ghost use Rattle.std.specs.Option.{option_map};
ghost use Rattle.pd_outside.specs.Faults.{CallMade, Counts};
ghost use Rattle.pd_outside.specs.Shelf.{Held, begin_file, append_bytes, end_file};

use crate::Failed;

/// The files that a program writes, one after the other. The name `-` is the standard output.
///
/// `held` is an optional meaning. An implementation that can't tell it, such as one over a real disk, has `None`. The clauses about
/// it then say nothing of it.
pub trait Shelf {
    /// The finished files in order, and the begun file with its bytes so far.
    ghost held: { Self → Option Held };

    /// Whether a file is begun.
    ghost is_begun: { Self → Bool };

    /// What is told of failed calls: a count that rises whenever one fails and never falls. An implementation that counts exactly tells
    /// how many failed and whether the last call did, too.
    ghost counts: { Self → Counts };

    /// Begins an empty file of a name. At `Failed` no file is begun.
    fn begin(&mut self, name: &str) -> Result<(), Failed>
        requires { is_begun self.old ≡ false }
        ensures begun { is_begun self.new ≡ is_ok result }
        ensures held { OnOk result (held self.new ≡ option_map (begin_file name.now) (held self.old)) }
        ensures unchanged { OnErr result (held self.new ≡ held self.old) }
        ensures counts { CallMade result (counts self.old) (counts self.new) };

    /// Appends the first bytes of the piece to the begun file, and returns how many: at least one. At `Failed` the file is as
    /// before. The file stays begun in both cases.
    fn write(&mut self, piece: &[u8]) -> Result<usize, Failed>
        requires begun { IsTrue (is_begun self.old) }
        requires not_empty { 0 < length piece.now }

        ensures some { IfOk result (λ n. 1 ≤ n) }
        ensures within { IfOk result (λ n. n ≤ length piece.now) }
        ensures held { IfOk result (λ n. held self.new ≡ option_map (append_bytes (take n piece.now)) (held self.old)) }
        ensures unchanged { OnErr result (held self.new ≡ held self.old) }
        ensures begun { IsTrue (is_begun self.new) }
        ensures counts { CallMade result (counts self.old) (counts self.new) };

    /// Finishes the begun file. At `Failed` it stays begun, as it was.
    fn end(&mut self) -> Result<(), Failed>
        requires { IsTrue (is_begun self.old) }
        ensures begun { is_begun self.new ≡ is_err result }
        ensures held { OnOk result (held self.new ≡ option_map end_file (held self.old)) }
        ensures unchanged { OnErr result (held self.new ≡ held self.old) }
        ensures counts { CallMade result (counts self.old) (counts self.new) };

    /// `held` has a begun file exactly if one is begun.
    ghost told_alike: { (shelf : Self) → IfSome (held shelf) (λ h. is_some h.begun ≡ is_begun shelf) };
}
