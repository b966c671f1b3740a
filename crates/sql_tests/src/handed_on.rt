//! Which calls a store hands on to its database, and how a refused one ends.

ghost use Rattle.std.specs.Prelude.{◌≡◌, IsTrue};

use crate::tables::to_customer;
use row_keeper::{Keeper, RefTo};
use sql_keeper::{Databases, Refused, RowTables, SqlKeeper};
use std::cell::Cell;

// How often each call was handed on, and what the last put was: its table, its key, how many references and how many bytes.
#[derive(Drop)]
struct Calls {
    puts: Cell<u32>,
    drops: Cell<u32>,
    commits: Cell<u32>,
    closes: Cell<u32>,
    last: Cell<(u32, u64, usize, usize)>,
}

impl Calls {
    fn none() -> Calls {
        Calls {
            puts: Cell::new(0),
            drops: Cell::new(0),
            commits: Cell::new(0),
            closes: Cell::new(0),
            last: Cell::new((0, 0, 0, 0)),
        }
    }

    fn counts(&self) -> (u32, u32, u32, u32) {
        (
            self.puts.get(),
            self.drops.get(),
            self.commits.get(),
            self.closes.get(),
        )
    }
}

// Counts a call.
fn count(calls: &Cell<u32>) {
    calls.set(calls.get().wrapping_add(1));
}

// What a database refuses once, the first time.
#[derive(Clone, Copy, PartialEq, Eq)]
enum Refusing {
    Nothing,
    Put,
    Drop,
    Commit,
}

// Databases that keep nothing but the counts of their calls.
#[derive(Drop)]
struct Counted<'a> {
    calls: &'a Calls,
    refusing: Refusing,
}

#[derive(Drop)]
struct CountedTables<'a> {
    calls: &'a Calls,
    refusing: Refusing,
    is_committed: bool,
}

impl CountedTables<'_> {
    // Refuses this call if it is the one to be refused, and no later one.
    fn answer(&mut self, call: Refusing) -> Result<(), Refused>
        ensures { self.new.is_committed ≡ self.old.is_committed }
    {
        if self.refusing == call {
            self.refusing = Refusing::Nothing;
            return Err(Refused);
        }
        Ok(())
    }
}

impl<'a> Databases for Counted<'a> {
    type Tables = CountedTables<'a>;

    fn open(&self, _name: &str) -> Result<CountedTables<'a>, Refused> {
        Ok(CountedTables {
            calls: self.calls,
            refusing: self.refusing,
            is_committed: false,
        })
    }
}

impl RowTables for CountedTables<'_> {
    ghost is_committed = { λ database. database.is_committed };

    fn put(&mut self, table: u32, key: u64, refs: &[RefTo], line: &[u8]) -> Result<(), Refused> {
        count(&self.calls.puts);
        self.calls.last.set((table, key, refs.len(), line.len()));
        self.answer(Refusing::Put)
    }

    fn drop_row(&mut self, _table: u32, _key: u64) -> Result<(), Refused> {
        count(&self.calls.drops);
        self.answer(Refusing::Drop)
    }

    fn commit(&mut self) -> Result<(), Refused> {
        count(&self.calls.commits);
        let committed = self.answer(Refusing::Commit);
        self.is_committed = committed.is_ok();
        committed
    }

    fn close(self) {
        count(&self.calls.closes);
    }
}

// What came of a store: whether all statements were made, whether it was finished, and whether any call was made after that was refused.
#[derive(Clone, Copy, PartialEq, Eq)]
struct Played {
    is_made: bool,
    is_finished: bool,
    goes_on: bool,
}

// Puts three rows if that is asked for, drops one, and finishes the store. If that is refused, tries all again.
fn play(calls: &Calls, refusing: Refusing, has_rows: bool) -> Option<Played> {
    let mut keeper = SqlKeeper::new(Counted { calls, refusing });
    keeper.start("").ok()?;
    let is_put = !has_rows || are_put(&mut keeper);
    let is_dropped = keeper.drop_row(0, 1).is_ok();
    let is_finished = keeper.finish().is_ok();
    let goes_on = !is_finished
        && (keeper.put(1, 1, &[], b"1\t1\n").is_ok()
            || keeper.drop_row(0, 1).is_ok()
            || keeper.finish().is_ok());
    Some(Played {
        is_made: is_put && is_dropped,
        is_finished,
        goes_on,
    })
}

fn is_put<K: Keeper>(keeper: &mut K, key: u64) -> bool
    requires { IsTrue (K.store keeper.old).is_open }
    ensures { IsTrue (K.store keeper.new).is_open }
{
    keeper.put(1, key, &[to_customer(key)], b"1\t1\n").is_ok()
}

// Puts three rows, also after one is refused, and tells whether all were put.
fn are_put<K: Keeper>(keeper: &mut K) -> bool
    requires { IsTrue (K.store keeper.old).is_open }
    ensures { IsTrue (K.store keeper.new).is_open }
{
    let first = is_put(keeper, 1);
    let second = is_put(keeper, 2);
    let third = is_put(keeper, 3);
    first && second && third
}

fn is(played: Option<Played>, is_made: bool, is_finished: bool) -> bool {
    played
        == Some(Played {
            is_made,
            is_finished,
            goes_on: false,
        })
}

// Each call is handed on once, as it is, and then the store is committed and closed, whether it has one statement or more.
#[test]
fn each_call_is_handed_on_once(rt: HostRuntime) {
    let calls = Calls::none();
    let one = play(&calls, Refusing::Nothing, false);
    assert!(rt; is(one, true, true) && calls.counts() == (0, 1, 1, 1));
    let calls = Calls::none();
    let many = play(&calls, Refusing::Nothing, true);
    assert!(rt; is(many, true, true) && calls.counts() == (3, 1, 1, 1));
    assert!(rt; calls.last.get() == (1, 3, 1, 4));
}

// After a refused statement no other call is handed on, and nothing is committed or closed.
#[test]
fn nothing_is_handed_on_after_a_refused_statement(rt: HostRuntime) {
    let calls = Calls::none();
    let put = play(&calls, Refusing::Put, true);
    assert!(rt; is(put, false, false) && calls.counts() == (1, 0, 0, 0));
    let calls = Calls::none();
    let dropped = play(&calls, Refusing::Drop, true);
    assert!(rt; is(dropped, false, false) && calls.counts() == (3, 1, 0, 0));
}

// A refused commit is told, though a second would be made. The store isn't closed, and nothing more is handed on.
#[test]
fn a_refused_commit_is_told(rt: HostRuntime) {
    let calls = Calls::none();
    let committed = play(&calls, Refusing::Commit, true);
    assert!(rt; is(committed, true, false) && calls.counts() == (3, 1, 1, 0));
}
