//! The files that are read.

ghost use Rattle.std.specs.Prelude.{◌≡◌, ◌<◌, ◌≤◌, ◌+◌, ◌^◌, ℕ, List, Bool, Option, length, IsTrue, IfOk, IfSome, OnOk, OnErr, is_ok, is_some};
ghost use Rattle.std.specs.Option.{option_map};
ghost use Rattle.std.specs.Result.{result_unwrap_or};
ghost use Rattle.pd_outside.specs.Faults.{CallMade, Counts};
ghost use Rattle.pd_outside.specs.Library.{Content, left, start_file, take_bytes, stop, ReadsPrefix, ask, AskedAtMost};

use crate::Failed;

/// The files that a program reads, one at a time, each from its start.
///
/// `content` and `asked` are optional meanings. An implementation that can't tell them, such as one over a real disk, has `None`.
/// The clauses about them then say nothing of it.
pub trait Library {
    /// The files, and the started file with the bytes that are left of it. No call changes the files.
    ghost content: { Self → Option Content };

    /// The names that were given to `start` so far, in order.
    ghost asked: { Self → Option (List (List ℕ)) };

    /// Whether a file is started.
    ghost is_started: { Self → Bool };

    /// How many bytes were taken since the last `start`.
    ghost taken: { Self → ℕ };

    /// What is told of failed calls: a count that rises whenever one fails and never falls. An implementation that counts exactly tells
    /// how many failed, too.
    ghost counts: { Self → Counts };

    /// Starts the first file of a name, at its first byte. If no file has the name, starts an empty file, or fails. At `Failed` no
    /// file is started.
    fn start(&mut self, name: &str) -> Result<(), Failed>
        ensures started { is_started self.new ≡ is_ok result }
        ensures content { OnOk result (content self.new ≡ option_map (start_file name.now) (content self.old)) }
        ensures stopped { OnErr result (content self.new ≡ option_map stop (content self.old)) }
        ensures asked { OnOk result (asked self.new ≡ ask name.now (asked self.old)) }
        ensures asked_at_most { AskedAtMost name.now (asked self.old) (asked self.new) }
        ensures taken { taken self.new ≡ 0 }
        ensures counts { CallMade result (counts self.old) (counts self.new) };

    /// Takes bytes of the started file into the beginning of `into`, and returns how many: at least one, except at the end of the
    /// file. At `Failed` no file is started.
    fn read(&mut self, into: &mut [u8]) -> Result<usize, Failed>
        requires started { IsTrue (is_started self.old) }
        requires not_empty { 0 < length into.old }
        requires countable { taken self.old + length into.old < 2 ^ 64 }

        ensures within { IfOk result (λ n. n ≤ length into.old) }
        ensures prefix { IfOk result (λ n. IfSome (content self.old) (λ c. ReadsPrefix (left c) n into.new)) }
        ensures content { IfOk result (λ n. content self.new ≡ option_map (take_bytes n) (content self.old)) }
        ensures started { is_started self.new ≡ is_ok result }
        ensures stopped { OnErr result (content self.new ≡ option_map stop (content self.old)) }
        ensures taken { taken self.new ≡ taken self.old + result_unwrap_or result 0 }
        ensures asked { asked self.new ≡ asked self.old }
        ensures counts { CallMade result (counts self.old) (counts self.new) };

    /// `content` has a started file exactly if one is started.
    ghost told_alike: { (library : Self) → IfSome (content library) (λ c. is_some c.started ≡ is_started library) };
}
