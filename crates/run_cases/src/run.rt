//! A run of the program over files in memory: what it is given, what it must come to, and what it came to that it mustn't.

ghost use Rattle.std.specs.Prelude.{◌≡◌, false};
ghost use Rattle.row_keeper.specs.MapKeeper.{keeping_of};

use crate::schemas::ONE;
use out_of_memory::Memory;
use pd_outside::{Files, LibraryFails, MemLibrary, MemShelf, OpenGate, ShelfFail, ShelfFails};
use pdgf_run::{Report, pdgf};
use row_keeper::{KeeperFails, MapKeeper};
use std::alloc::Global;
use std::thread::Threads;

/// What a finished file holds.
#[derive(Clone, Copy)]
pub enum Held<'a> {
    /// The text itself.
    Text(&'a str),
    /// A text by its checksum: its bytes in turn, folded by c * 1,000,003 + byte modulo 2^64.
    Sum(u64),
}

/// What a run is given, and what it must come to.
#[derive(Clone, Copy)]
pub struct Run<'a> {
    /// The name that tells the run from others if an assertion fails.
    pub name: &'a str,
    /// The text of the schema `s.toml`.
    pub schema: &'a str,
    /// The words, with a space between two, the program's name first. An empty line has no word.
    pub words: &'a str,
    /// The call of the shelf that fails.
    pub fail: ShelfFail,
    /// The most bytes that the shelf takes at once.
    pub step: usize,
    /// The status that the run must come to.
    pub status: u8,
    /// The message that the run must come to.
    pub message: &'a str,
    /// The name of the file that is left begun.
    pub begun: Option<&'a str>,
    /// The bytes of the file that is left begun.
    pub begun_bytes: &'a str,
    /// The finished files, each with a name and what it holds.
    pub finished: &'a [(&'a str, Held<'a>)],
}

/// The text of the schema `ONE` at unit 2.
pub const ONE_AT_2: &str = "1\t0\n2\t1\n3\t2\n";

/// The words that ask for the snapshot at unit 2.
pub const TWO: &str = "pdgf snapshot s.toml --unit 2";

/// A run that ends well.
pub const DONE: Run<'static> = Run {
    name: "",
    schema: ONE,
    words: TWO,
    fail: ShelfFail::Begin(99),
    step: 1000,
    status: 0,
    message: "",
    begun: None,
    begun_bytes: "",
    finished: &[],
};

/// A run that is refused, and begins no file.
pub const REFUSED: Run<'static> = Run {
    fail: ShelfFail::Begin(1),
    ..DONE
};

/// A run in which a write fails.
pub const STOPPED: Run<'static> = Run {
    status: 6,
    message: "pdgf: write failed\n",
    ..DONE
};

/// What a run came to that it mustn't. Each is told with the run's name.
#[derive(Clone, Copy, Debug, PartialEq, Eq)]
pub enum Unmet<'a> {
    /// Memory ran out before the run.
    Memory,
    /// The shelf takes no byte at once.
    Step(&'a str),
    /// Another status.
    Status(&'a str, u8),
    /// Another message.
    Message(&'a str),
    /// Another file is left begun, or it holds other bytes.
    Begun(&'a str),
    /// Another number of finished files.
    Files(&'a str, usize),
    /// The finished file at a place, counted from 0, has another name or holds something else.
    File(&'a str, usize),
}

impl<'a> From<Memory> for Unmet<'a> {
    fn from(_: Memory) -> Unmet<'a> {
        Unmet::Memory
    }
}

/// Returns a library that holds the schema as `s.toml`, and the dictionaries `n` and `m` if they are given. One call on it fails.
pub fn library_of(
    alloc: Global,
    schema: &[u8],
    dictionaries: [Option<&[u8]>; 2],
    fail: (&str, u64),
) -> Result<MemLibrary, Memory> {
    let mut files = Files::new(alloc);
    files.push("s.toml", schema)?;
    let [n, m] = dictionaries;
    if let Some(bytes) = n {
        files.push("n", bytes)?;
    }
    if let Some(bytes) = m {
        files.push("m", bytes)?;
    }
    let mut fails = LibraryFails::new(alloc);
    fails.push(fail.0, fail.1)?;
    Ok(MemLibrary::new(alloc, files, fails))
}

/// Returns the words of a line, which have one space between two.
pub fn words_of(alloc: Global, line: &str) -> Result<Vec<String>, Memory> {
    let mut words = Vec::new(alloc);
    if !line.is_empty() {
        for word in line.split(' ') {
            words.push(String::from_str(alloc, word)?)?;
        }
    }
    Ok(words)
}

/// Returns a store into which nothing is played.
pub fn idle_keeper(alloc: Global) -> MapKeeper
    ensures closed { (keeping_of result).is_open ≡ false }
    ensures no_fault { (keeping_of result).faults ≡ 0 }
{
    MapKeeper::new(alloc, KeeperFails::new(alloc))
}

fn checksum(text: &[u8]) -> u64 {
    let mut sum = 0u64;
    for byte in text {
        sum = sum.wrapping_mul(1_000_003).wrapping_add(u64::from(*byte));
    }
    sum
}

fn is_held(bytes: &[u8], held: Held<'_>) -> bool {
    match held {
        Held::Text(text) => bytes == text.as_bytes(),
        Held::Sum(sum) => checksum(bytes) == sum,
    }
}

fn check_files<'a>(shelf: &MemShelf, run: &Run<'a>) -> Result<(), Unmet<'a>> {
    if shelf.begun() != run.begun || shelf.begun_bytes() != run.begun_bytes.as_bytes() {
        return Err(Unmet::Begun(run.name));
    }
    let files = shelf.finished();
    if files.len() != run.finished.len() {
        return Err(Unmet::Files(run.name, files.len()));
    }
    for place in 0..files.len() {
        let (file, held) = run.finished[place];
        if files.name(place) != file || !is_held(files.bytes(place), held) {
            return Err(Unmet::File(run.name, place));
        }
    }
    Ok(())
}

/// Runs the words over a library, and compares all that they come to.
pub fn check_run_over<'a, R: Threads + Sync>(
    rt: &R,
    alloc: Global,
    library: &mut MemLibrary,
    run: &Run<'a>,
) -> Result<(), Unmet<'a>> {
    if run.step == 0 {
        return Err(Unmet::Step(run.name));
    }
    let mut fails = ShelfFails::new(alloc);
    fails.push(run.fail)?;
    let mut shelf = MemShelf::new(alloc, fails, run.step);
    let words = words_of(alloc, run.words)?;
    let mut keeper = idle_keeper(alloc);
    let Report { status, message } = pdgf(
        rt,
        alloc,
        &words,
        library,
        &mut shelf,
        &OpenGate,
        &mut keeper,
    );
    if status != run.status {
        return Err(Unmet::Status(run.name, status));
    }
    if message.text() != run.message.as_bytes() {
        return Err(Unmet::Message(run.name));
    }
    check_files(&shelf, run)
}

/// Runs the words of each run over its schema, up to the first that comes to something else.
pub fn check_runs<'a, R: Threads + Sync>(
    rt: &R,
    alloc: Global,
    runs: &[Run<'a>],
) -> Result<(), Unmet<'a>> {
    for run in runs {
        let mut library = library_of(alloc, run.schema.as_bytes(), [None, None], ("", 1))?;
        check_run_over(rt, alloc, &mut library, run)?;
    }
    Ok(())
}
