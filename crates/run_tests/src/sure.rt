//! Runs over an outside that never fails.

ghost use Rattle.std.specs.Prelude.{◌≡◌, ◌⊎◌, List, Ok, map, string_bytes, false};
ghost use Rattle.pd_outside.specs.Files.{File};
ghost use Rattle.row_keeper.specs.MapKeeper.{keeping_of};
ghost use Rattle.fill_jobs.specs.Playing.{plays_for};
ghost use Rattle.pdgf_run.specs.Verdict.{IsVerdict};
ghost use Rattle.request_words.specs.Words.{request};

use pd_outside::{Files, OpenGate, SureLibrary, SureShelf};
use pdgf_run::laws::words_and_files_have_one_verdict;
use pdgf_run::{Report, pdgf};
use row_keeper::MapKeeper;
use run_cases::schemas::TRADE;
use run_cases::{idle_keeper, words_of};
use std::alloc::Global;
use std::process::Abort;
use std::thread::Threads;

/// Runs `pdgf` over such an outside. If it plays nothing and files are due, all is done, or memory ran out.
fn run_surely<R: Threads + Sync>(
    rt: &R,
    alloc: Global,
    words: &[String],
    library: &mut SureLibrary,
    shelf: &mut SureShelf,
    keeper: &mut MapKeeper,
) -> Report
    requires none_begun { shelf.old.is_begun ≡ false }
    requires closed { (keeping_of keeper.old).is_open ≡ false }
    requires no_fault { (keeping_of keeper.old).faults ≡ 0 }
    ensures complete { plays_for (request (map string_bytes words.now)) ≡ false → (due : List File) → IsVerdict (map string_bytes words.now) library.old.content.files (Ok due) → (result.status ≡ 0) ⊎ (result.status ≡ 7) }
{
    words_and_files_have_one_verdict();
    pdgf(rt, alloc, words, library, shelf, &OpenGate, keeper)
}

fn assert_done<R: Threads + Sync + Abort>(rt: &R, alloc: Global, line: &str) {
    let mut files = Files::new(alloc);
    files.push("s.toml", TRADE.as_bytes()).expect(rt, "memory");
    let mut library = SureLibrary::new(files);
    let words = words_of(alloc, line).expect(rt, "memory");
    let mut shelf = SureShelf::new();
    let mut keeper = idle_keeper(alloc);
    let Report { status, .. } = run_surely(
        rt,
        alloc,
        &words,
        &mut library,
        &mut shelf,
        &mut keeper,
    );
    assert_eq!(rt; status, 0, "{line}");
}

// No input file exists. So the inputs are empty, and so are the tables that they make.
#[test]
fn all_is_done_over_an_outside_that_never_fails(rt: HostRuntime) {
    assert_done(&rt, rt.alloc(), "pdgf snapshot s.toml --unit 2 --out out");
    assert_done(&rt, rt.alloc(), "pdgf unit s.toml --unit 3");
    assert_done(
        &rt,
        rt.alloc(),
        "pdgf apply s.toml --from 2 --to 3 --in d --out out",
    );
}
