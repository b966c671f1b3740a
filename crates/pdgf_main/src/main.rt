//! The program `pdgf`. It hands the system's files, the standard output, databases and the words of the command line to one call.
#![tactic(auto)]

use hints::{Ended, Setting, tell_hints};
use pd_outside::Library;
use pdgf_run::{Report, run_program};
use sql_keeper::{RowTables, SqlKeeper, SystemDatabases};
use std::io::{IsTerminal, Stderr};
use std::process::ExitCode;
use std::rt::Env;
use std::{env, io};
use system_files::{FileLibrary, FileShelf, LastFault, ProgressShelf, Syncing};

fn main(rt: HostRuntime) -> ExitCode {
    let mut library = FileLibrary::new(&rt);
    let files = FileShelf::with_syncing(&rt, rt.alloc(), rt.stdout(), syncing(&rt));
    // Progress is shown only if the standard error is a terminal, so no log has it.
    let is_terminal = rt.stderr().is_terminal();
    let watched = if is_terminal { Some(rt.stderr()) } else { None };
    let mut shelf = ProgressShelf::new(files, &rt, watched, rt.stdout().is_terminal());
    let mut keeper = SqlKeeper::new(SystemDatabases::new(&rt));
    let report = run_program(
        &rt,
        rt.alloc(),
        words_of(&rt),
        &mut library,
        &mut shelf,
        &mut keeper,
    );
    // A store that was broken off loses what was made in it.
    if let Some(tables) = keeper.into_tables() {
        tables.close();
    }
    // If the message can't be written, the status still tells the end.
    let _ = report.tell(&mut rt.stderr());
    if report.status != 0 && hints_setting(&rt).shows(is_terminal) {
        let fault = match report.status {
            6 => shelf.shelf().last_fault(),
            _ => library.last_fault(),
        };
        let _ = hint(&rt, &report, fault, &mut library, &mut rt.stderr());
    }
    report.exit_code()
}

/// Tells what the message of a report means here. `fault` is the call on a file that failed last.
fn hint<R: Env + AllocGlobal, L: Library>(
    rt: &R,
    report: &Report,
    fault: Option<LastFault>,
    library: &mut L,
    output: &mut Stderr,
) -> io::Result<()> {
    let words = words_of(rt)?;
    let ended = Ended {
        words: words.as_slice(),
        status: report.status,
        message: report.message.text(),
        fault,
    };
    tell_hints(rt.alloc(), &ended, library, output)
}

/// Returns when hints are shown, by the environment: `PDGF_HINTS=1` shows them, and `PDGF_HINTS=0` hides them on a terminal too.
fn hints_setting<R: Env + AllocGlobal>(rt: &R) -> Setting {
    match env::var(rt, "PDGF_HINTS") {
        Ok(value) => Setting::named(value.as_str()),
        Err(_) => Setting::OnTerminal,
    }
}

/// Returns the words of the command line, the program's name first.
fn words_of<R: Env + AllocGlobal>(rt: &R) -> io::Result<Vec<String>> {
    Ok(env::args(rt)?.collect(rt.alloc())?)
}

/// Returns when files are synced: at their end, unless `PDGF_SYNC=0` is in the environment, for measuring without the syncs.
fn syncing<R: Env + AllocGlobal>(rt: &R) -> Syncing {
    match env::var(rt, "PDGF_SYNC") {
        Ok(value) if value.as_str() == "0" => Syncing::Never,
        _ => Syncing::AtEnd,
    }
}
