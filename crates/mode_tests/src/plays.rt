//! Mode play over files and a store in memory: what the store holds after a play, and what a failed statement leaves in it.

ghost use Rattle.std.specs.Prelude.{◌≡◌, false};
ghost use Rattle.row_keeper.specs.MapKeeper.{keeping_of};

use pd_outside::{MemShelf, OpenGate, ShelfFail, ShelfFails};
use pdgf_run::{Report, pdgf};
use row_keeper::{KeeperFails, MapKeeper, RefTo};
use run_cases::schemas::TRADE;
use run_cases::{library_of, words_of};
use std::alloc::Global;
use std::process::Abort;
use std::thread::Threads;

// A run over customers and their orders, and what it must come to.
#[derive(Clone, Copy)]
struct Play<'a> {
    words: &'a str,
    fail: ShelfFail,
    status: u8,
    message: &'a str,
    summary: Option<&'a [u8]>,
}

const PLAYED: Play<'static> = Play {
    words: "pdgf play s.toml --to 3 --store s",
    fail: ShelfFail::Begin(99),
    status: 0,
    message: "",
    summary: Some(b"customer\t3\norders\t1\n"),
};

// Returns a store in which the statement of this number fails.
fn keeper_failing(rt: &impl Abort, alloc: Global, call: u64) -> MapKeeper
    ensures { (keeping_of result).is_open ≡ false }
{
    let mut fails = KeeperFails::new(alloc);
    fails.push(call).expect(rt, "memory");
    MapKeeper::new(alloc, fails)
}

fn assert_play<R: Threads + Sync + Abort>(
    rt: &R,
    alloc: Global,
    play: &Play<'_>,
    keeper: &mut MapKeeper,
)
    requires { (keeping_of keeper.old).is_open ≡ false }
{
    let mut library = library_of(alloc, TRADE.as_bytes(), [None, None], ("", 1)).expect(
        rt, "memory",
    );
    let mut fails = ShelfFails::new(alloc);
    fails.push(play.fail).expect(rt, "memory");
    let mut shelf = MemShelf::new(alloc, fails, 1000);
    assert!(rt; shelf.begun().is_none());
    let words = words_of(alloc, play.words).expect(rt, "memory");
    let Report { status, message } = pdgf(
        rt,
        alloc,
        &words,
        &mut library,
        &mut shelf,
        &OpenGate,
        keeper,
    );
    assert_eq!(rt; status, play.status);
    assert_eq!(rt; message.text(), play.message.as_bytes());
    let files = shelf.finished();
    match play.summary {
        Some(summary) => assert!(rt; files.len() == 1 && files.bytes(0) == summary),
        None => assert_eq!(rt; files.len(), 0),
    }
}

fn assert_row(
    rt: &impl Abort,
    keeper: &MapKeeper,
    table: u32,
    key: u64,
    line: &[u8],
    parent: Option<u64>,
) {
    assert!(rt; keeper.line(table, key) == Some(line), "line {key}");
    let Some(refs) = keeper.refs(table, key) else {
        panic!(rt; "no row {key}");
    };
    match parent {
        None => assert_eq!(rt; refs.len(), 0),
        Some(key) => {
            let to = RefTo {
                column: 1,
                table: 0,
                key,
            };
            assert!(rt; refs == [to].as_slice(), "parent {key}");
        }
    }
}

fn assert_missing(rt: &impl Abort, keeper: &MapKeeper, table: u32, keys: &[u64]) {
    for key in keys {
        assert!(rt; keeper.line(table, *key).is_none(), "row {key}");
    }
}

// Unit 0 puts two rows. Units 1 and 2 each put one updated row and two inserted rows. So does unit 3, which also drops the first
// customer and its three orders: 2 + 3 + 3 + 7 statements.
#[test]
fn a_store_holds_what_the_tables_do(rt: HostRuntime) {
    let mut keeper = keeper_failing(&rt, rt.alloc(), 99);
    assert_play(&rt, rt.alloc(), &PLAYED, &mut keeper);
    assert!(rt; !keeper.is_open());
    assert_eq!(rt; keeper.name(), "s");
    assert_eq!(rt; keeper.statements(), 15);
    assert_row(&rt, &keeper, 0, 2, b"2\t1\t2\n", None);
    assert_row(&rt, &keeper, 0, 3, b"3\t2\t3\n", None);
    assert_row(&rt, &keeper, 0, 4, b"4\t3\t3\n", None);
    assert_row(&rt, &keeper, 1, 4, b"4\t2\n", Some(2));
    assert_missing(&rt, &keeper, 0, &[1, 5]);
    assert_missing(&rt, &keeper, 1, &[1, 2, 3, 5]);
}

// The fifth statement puts the second order.
#[test]
fn a_statement_that_fails_leaves_those_before_it(rt: HostRuntime) {
    let mut keeper = keeper_failing(&rt, rt.alloc(), 5);
    let failed = Play {
        status: 12,
        message: "pdgf: keeper failed\n",
        summary: None,
        ..PLAYED
    };
    assert_play(&rt, rt.alloc(), &failed, &mut keeper);
    assert!(rt; keeper.is_open());
    assert_eq!(rt; keeper.name(), "s");
    assert_eq!(rt; keeper.statements(), 4);
    assert_row(&rt, &keeper, 0, 1, b"1\t0\t1\n", None);
    assert_row(&rt, &keeper, 0, 2, b"2\t1\t1\n", None);
    assert_row(&rt, &keeper, 1, 1, b"1\t1\n", Some(1));
    assert_missing(&rt, &keeper, 0, &[3]);
    assert_missing(&rt, &keeper, 1, &[2]);
}

// A refused request touches no store. A failed write comes only after the store is finished.
#[test]
fn a_store_is_finished_before_the_output_is_begun(rt: HostRuntime) {
    let mut keeper = keeper_failing(&rt, rt.alloc(), 1);
    let refused = Play {
        words: "pdgf play s.toml --to 6 --store s",
        status: 8,
        message: "pdgf: out of range: --to\n",
        summary: None,
        ..PLAYED
    };
    assert_play(&rt, rt.alloc(), &refused, &mut keeper);
    assert_eq!(rt; keeper.name(), "");
    let mut keeper = keeper_failing(&rt, rt.alloc(), 99);
    let unwritten = Play {
        fail: ShelfFail::Begin(1),
        status: 6,
        message: "pdgf: write failed\n",
        summary: None,
        ..PLAYED
    };
    assert_play(&rt, rt.alloc(), &unwritten, &mut keeper);
    assert!(rt; !keeper.is_open());
    assert_eq!(rt; keeper.statements(), 15);
}
