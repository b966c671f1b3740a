//! A store of rows and of the references between them.

ghost use Rattle.std.specs.Prelude.{◌≡◌, ◌≤◌, ℕ, Bool, true, false, IsTrue, OnOk, OnErr, Some, None, is_err};
ghost use Rattle.pd_outside.specs.Faults.{CallMade, Counts};
ghost use Rattle.row_keeper.specs.Kept.{put_row, drop_row};
ghost use Rattle.row_keeper.specs.Store.{Store, finish_store, perform, start_store};

/// A reference that isn't null.
#[derive(Clone, Copy, Debug, PartialEq, Eq)]
pub struct RefTo {
    /// The place of the reference's column in its table.
    pub column: u32,
    /// The place of the parent's table.
    pub table: u32,
    /// The key of the parent.
    pub key: u64,
}

/// A call of a `Keeper` failed. What it keeps stays as it was.
#[derive(Clone, Copy, Debug, PartialEq, Eq)]
pub struct KeepFailed;

/// A store of rows, by the place of their table and their key. It is open from a `start` to the next `finish`.
///
/// What a `store` tells of its rows and of its name is optional. An implementation that can't tell them, such as one over a database, has
/// `None`. The clauses on them then say nothing.
pub trait Keeper {
    /// The rows and the name that was last started, each if it is told; whether the store is open; and the number of statements since it was
    /// started.
    ghost store: { Self → Store };

    /// What is told of failed calls: a count that rises whenever one fails and never falls. An implementation that counts exactly tells
    /// how many failed and whether the last call did, too.
    ghost counts: { Self → Counts };

    /// Opens the store of a name, which then has no rows. At `KeepFailed` nothing changes.
    fn start(&mut self, name: &str) -> Result<(), KeepFailed>
        requires { (store self.old).is_open ≡ false }
        ensures started { OnOk result (store self.new ≡ start_store name.now (store self.old)) }
        ensures unchanged { OnErr result (store self.new ≡ store self.old) }
        ensures counts { CallMade result (counts self.old) (counts self.new) };

    /// Puts the row of a table with a key: its references, and its line with its line feed. Replaces a row with the same key. At `KeepFailed`
    /// nothing changes.
    fn put(&mut self, table: u32, key: u64, refs: &[RefTo], line: &[u8]) -> Result<(), KeepFailed>
        requires { IsTrue (store self.old).is_open }
        ensures made { OnOk result (store self.new ≡ perform (put_row table key (record { refs = refs.now; line = line.now })) (store self.old)) }
        ensures unchanged { OnErr result (store self.new ≡ store self.old) }
        ensures counts { CallMade result (counts self.old) (counts self.new) };

    /// Drops the row of a table with a key. Does nothing if there is none. At `KeepFailed` nothing changes.
    fn drop_row(&mut self, table: u32, key: u64) -> Result<(), KeepFailed>
        requires { IsTrue (store self.old).is_open }
        ensures made { OnOk result (store self.new ≡ perform (drop_row table key) (store self.old)) }
        ensures unchanged { OnErr result (store self.new ≡ store self.old) }
        ensures counts { CallMade result (counts self.old) (counts self.new) };

    /// Closes the store, which keeps what was put. At `KeepFailed` it stays open, as it was.
    fn finish(&mut self) -> Result<(), KeepFailed>
        requires { IsTrue (store self.old).is_open }
        ensures finished { OnOk result (store self.new ≡ finish_store (store self.old)) }
        ensures unchanged { OnErr result (store self.new ≡ store self.old) }
        ensures counts { CallMade result (counts self.old) (counts self.new) };
}
