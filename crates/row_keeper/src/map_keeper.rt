//! A store in memory.

ghost use Rattle.std.specs.Prelude.{◌≡◌, ◌<◌, ◌≤◌, ◌+◌, [], ◌∷◌, ◌++◌, ◌↔◌, None, Some, false, true, Contains, IsErr, IsOk, IfOk, IsTrue, OnOk, OnErr, is_err};
ghost use Rattle.std.specs.Option.{option_map};
ghost use Rattle.pd_outside.specs.Faults.{CallMade, counted, last_count};
ghost use Rattle.row_keeper.specs.Kept.{KeptRow, no_rows, put_row, drop_row, with_row};
ghost use Rattle.row_keeper.specs.MapKeeper.{IsCounted, counts_of, keeping_of, row_of, store_of};
ghost use Rattle.row_keeper.specs.Store.{finish_store, perform, start_store};

use crate::{KeepFailed, Keeper, RefTo};
use out_of_memory::Memory;
use std::alloc::Global;
use std::collections::HashMap;
use std::marker::Model;

/// The calls of a `MapKeeper` that fail. A call's number counts `put` and `drop_row` calls together, from 1, over the keeper's life.
#[derive(Drop)]
pub struct KeeperFails {
    calls: Vec<u64>,
}

impl Model for KeeperFails {
    ghost use Rattle.std.specs.Prelude.{ℕ, List};

    ghost Value = { List ℕ };

    ghost view = { λ f. f.calls.items };
}

impl KeeperFails {
    /// Returns a list by which no call fails.
    pub fn new(alloc: Global) -> Self
        ensures { result ≡ [] }
    {
        KeeperFails {
            calls: Vec::new(alloc),
        }
    }

    /// Makes a further call fail, by its number. At `Memory` the list stays as it was.
    pub fn push(&mut self, call: u64) -> Result<(), Memory>
        ensures ok { OnOk result (self.new ≡ self.old ++ call ∷ []) }
        ensures err { OnErr result (self.new ≡ self.old) }
    {
        self.calls.push(call)?;
        Ok(())
    }

    fn states(&self, call: u64) -> bool
        ensures { IsTrue result ↔ Contains self.now call }
    {
        self.calls.contains(&call)
    }
}

/// A kept row.
struct Kept {
    refs: Vec<RefTo>,
    line: Vec<u8>,
}

impl Drop for Kept {
    fn drop(self) {
        let Kept { refs, line } = self;
        drop(refs);
        drop(line);
    }
}

/// A store that keeps its rows in memory, with stated failures. It tells its rows and its name. The name is empty before the first `start`.
///
/// A `put` or a `drop_row` fails if it is stated to, or if 2^64 - 1 statements were made since the last `start`. `start` and `put` fail if
/// memory runs out. Each call that fails is counted as a fault.
pub struct MapKeeper {
    alloc: Global,
    fails: KeeperFails,
    rows: HashMap<(u32, u64), Kept>,
    name: String,
    is_open: bool,
    done: u64,
    calls: u64,
    faults: u64,
    last_failed: bool,
}

impl Drop for MapKeeper {
    fn drop(self) {
        let MapKeeper {
            alloc: _,
            fails,
            rows,
            name,
            is_open: _,
            done: _,
            calls: _,
            faults: _,
            last_failed: _,
        } = self;
        drop(fails);
        drop(rows);
        drop(name);
    }
}

/// Returns a row with copies of its references and its line.
fn kept_row(alloc: Global, refs: &[RefTo], line: &[u8]) -> Result<Kept, Memory>
    ensures { IfOk result (λ kept. row_of kept ≡ record { refs = refs.now; line = line.now }) }
{
    let mut kept = Kept {
        refs: Vec::with_capacity(alloc, refs.len())?,
        line: Vec::with_capacity(alloc, line.len())?,
    };
    kept.refs.extend_from_slice(refs)?;
    kept.line.extend_from_slice(line)?;
    Ok(kept)
}

impl MapKeeper {
    /// Returns a store with stated failures. It isn't open and has no rows, and no call was made.
    pub fn new(alloc: Global, fails: KeeperFails) -> Self
        ensures { keeping_of result ≡ record {
          rows = no_rows;
          name = [];
          is_open = false;
          done = 0;
          fails = fails;
          calls = 0;
          faults = 0;
          last_failed = false;
        } }
    {
        MapKeeper {
            alloc,
            fails,
            rows: HashMap::new(alloc),
            name: String::new(alloc),
            is_open: false,
            done: 0,
            calls: 0,
            faults: 0,
            last_failed: false,
        }
    }

    /// Returns the line of the row of a table with a key; None exactly if no such row is kept.
    pub fn line(&self, table: u32, key: u64) -> Option<&[u8]>
        ensures { option_map (λ line. line.now) result ≡ option_map (λ (row : KeptRow). row.line) ((keeping_of self.now).rows table key) }
    {
        match self.rows.get(&(table, key)) {
            Some(kept) => Some(kept.line.as_slice()),
            None => None,
        }
    }

    /// Returns the references of the row of a table with a key; None exactly if no such row is kept.
    pub fn refs(&self, table: u32, key: u64) -> Option<&[RefTo]>
        ensures { option_map (λ refs. refs.now) result ≡ option_map (λ (row : KeptRow). row.refs) ((keeping_of self.now).rows table key) }
    {
        match self.rows.get(&(table, key)) {
            Some(kept) => Some(kept.refs.as_slice()),
            None => None,
        }
    }

    /// Returns the name that was last started, or the empty text before.
    pub fn name(&self) -> &str
        ensures { result.now ≡ (keeping_of self.now).name }
    {
        self.name.as_str()
    }

    /// Tells whether the store is open.
    pub fn is_open(&self) -> bool
        ensures { result ≡ (keeping_of self.now).is_open }
    {
        self.is_open
    }

    /// Returns the number of statements since the last `start`.
    pub fn statements(&self) -> u64
        ensures { result ≡ (keeping_of self.now).done }
    {
        self.done
    }

    /// Counts a call, and tells whether it can be made: it isn't stated to fail, and its statement can be counted.
    fn may_call(&mut self) -> bool
        ensures rest { keeping_of self.new ≡ record (keeping_of self.old) { calls = counted (keeping_of self.old).calls } }
        ensures stated { Contains (keeping_of self.old).fails (counted (keeping_of self.old).calls) → result ≡ false }
        ensures may { result ≡ true → (keeping_of self.old).done < last_count }
        ensures unstated { (keeping_of self.old).done < last_count → result ≡ false → Contains (keeping_of self.old).fails (counted (keeping_of self.old).calls) }
    {
        self.calls = self.calls.saturating_add(1);
        !self.fails.states(self.calls) && self.done < u64::MAX
    }

    /// Counts a failed call as a fault.
    fn fail(&mut self) -> Result<(), KeepFailed>
        ensures failed { IsErr result }
        ensures never_falls { (keeping_of self.old).faults ≤ (keeping_of self.new).faults }
        ensures rest { keeping_of self.new ≡ record (keeping_of self.old) { faults = counted (keeping_of self.old).faults; last_failed = true } }
    {
        self.faults = self.faults.saturating_add(1);
        self.last_failed = true;
        Err(KeepFailed)
    }

    /// Counts a statement that is made.
    fn succeed(&mut self) -> Result<(), KeepFailed>
        requires { (keeping_of self.old).done < last_count }
        ensures made { IsOk result }
        ensures rest { keeping_of self.new ≡ record (keeping_of self.old) { done = (keeping_of self.old).done + 1; last_failed = false } }
    {
        self.done += 1;
        self.last_failed = false;
        Ok(())
    }

    /// Puts a row under its key. At `Memory` nothing changes.
    fn insert(&mut self, table: u32, key: u64, refs: &[RefTo], line: &[u8]) -> Result<(), Memory>
        ensures ok { OnOk result (keeping_of self.new ≡ record (keeping_of self.old) { rows = with_row table key (Some (record { refs = refs.now; line = line.now })) (keeping_of self.old).rows }) }
        ensures err { OnErr result (keeping_of self.new ≡ keeping_of self.old) }
    {
        let kept = kept_row(self.alloc, refs, line)?;
        self.rows.insert((table, key), kept)?;
        Ok(())
    }

    /// Removes the row with a key.
    fn remove(&mut self, table: u32, key: u64)
        ensures { keeping_of self.new ≡ record (keeping_of self.old) { rows = with_row table key None (keeping_of self.old).rows } }
    {
        self.rows.remove(&(table, key));
    }
}

impl Keeper for MapKeeper {
    ghost store = { λ m. store_of (keeping_of m) };

    ghost counts = { λ m. counts_of (keeping_of m) };

    fn start(&mut self, name: &str) -> Result<(), KeepFailed>
        requires { (store_of (keeping_of self.old)).is_open ≡ false }
        ensures started { OnOk result (store_of (keeping_of self.new) ≡ start_store name.now (store_of (keeping_of self.old))) }
        ensures unchanged { OnErr result (store_of (keeping_of self.new) ≡ store_of (keeping_of self.old)) }
        ensures counts { CallMade result (counts_of (keeping_of self.old)) (counts_of (keeping_of self.new)) }

        // It fails only if memory runs out.
        ensures counted { IsCounted result (keeping_of self.old) (keeping_of self.new) }
        ensures calls { (keeping_of self.new).calls ≡ (keeping_of self.old).calls }
    {
        match String::from_str(self.alloc, name) {
            Ok(name) => {
                self.rows = HashMap::new(self.alloc);
                self.name = name;
                self.is_open = true;
                self.done = 0;
                self.last_failed = false;
                Ok(())
            }
            Err(_) => self.fail(),
        }
    }

    fn put(&mut self, table: u32, key: u64, refs: &[RefTo], line: &[u8]) -> Result<(), KeepFailed>
        requires { IsTrue (store_of (keeping_of self.old)).is_open }
        ensures made { OnOk result (store_of (keeping_of self.new) ≡ perform (put_row table key (record { refs = refs.now; line = line.now })) (store_of (keeping_of self.old))) }
        ensures unchanged { OnErr result (store_of (keeping_of self.new) ≡ store_of (keeping_of self.old)) }
        ensures counts { CallMade result (counts_of (keeping_of self.old)) (counts_of (keeping_of self.new)) }

        // It fails if it is stated to. Otherwise it fails only if memory, or a number for its statement, runs out.
        ensures stated { Contains (keeping_of self.old).fails (counted (keeping_of self.old).calls) → IsErr result }
        ensures counted { IsCounted result (keeping_of self.old) (keeping_of self.new) }
        ensures calls { (keeping_of self.new).calls ≡ counted (keeping_of self.old).calls }
    {
        if self.may_call() && self.insert(table, key, refs, line).is_ok() {
            self.succeed()
        } else {
            self.fail()
        }
    }

    fn drop_row(&mut self, table: u32, key: u64) -> Result<(), KeepFailed>
        requires { IsTrue (store_of (keeping_of self.old)).is_open }
        ensures made { OnOk result (store_of (keeping_of self.new) ≡ perform (drop_row table key) (store_of (keeping_of self.old))) }
        ensures unchanged { OnErr result (store_of (keeping_of self.new) ≡ store_of (keeping_of self.old)) }
        ensures counts { CallMade result (counts_of (keeping_of self.old)) (counts_of (keeping_of self.new)) }

        // It fails if it is stated to. Otherwise it fails only if no number for its statement is left.
        ensures stated { Contains (keeping_of self.old).fails (counted (keeping_of self.old).calls) → IsErr result }
        ensures unstated { (keeping_of self.old).done < last_count → OnErr result (Contains (keeping_of self.old).fails (counted (keeping_of self.old).calls)) }
        ensures counted { IsCounted result (keeping_of self.old) (keeping_of self.new) }
        ensures calls { (keeping_of self.new).calls ≡ counted (keeping_of self.old).calls }
    {
        if self.may_call() {
            self.remove(table, key);
            self.succeed()
        } else {
            self.fail()
        }
    }

    fn finish(&mut self) -> Result<(), KeepFailed>
        requires { IsTrue (store_of (keeping_of self.old)).is_open }
        ensures finished { OnOk result (store_of (keeping_of self.new) ≡ finish_store (store_of (keeping_of self.old))) }
        ensures unchanged { OnErr result (store_of (keeping_of self.new) ≡ store_of (keeping_of self.old)) }
        ensures counts { CallMade result (counts_of (keeping_of self.old)) (counts_of (keeping_of self.new)) }

        // It never fails.
        ensures sure { IsOk result }
        ensures counted { IsCounted result (keeping_of self.old) (keeping_of self.new) }
        ensures calls { (keeping_of self.new).calls ≡ (keeping_of self.old).calls }
    {
        self.is_open = false;
        self.last_failed = false;
        Ok(())
    }
}
