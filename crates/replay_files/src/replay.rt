//! What the modes apply, revert and details-apply have in common: they read texts and what makes others of them, replay that, and write the
//! texts that come of it.

ghost use Rattle.std.specs.Prelude.{◌≡◌, ◌≢◌, ◌<◌, ◌≤◌, ◌⊎◌, IfErr, IfOk, IfSome, length};
ghost use Rattle.pd_outside.specs.Library.{AskedPrefixOf};
ghost use Rattle.plan_stages.specs.PlanNames.{AskedNone};
ghost use Rattle.plan_stages.specs.Stages.{ended, told_files, IsReadOut};
ghost use Rattle.refusals.specs.Statuses.{job_status};
ghost use Rattle.row_text.specs.Fields.{IsDelimiter};
ghost use Rattle.run_jobs.specs.Jobs.{due_of, CanFill};
ghost use Rattle.run_jobs.specs.Formats.{AreRowsOf};
ghost use Rattle.replay_files.specs.Replay.{AreUnitsOf, CanReplay, IsMadeIn, IsMadeOf, IsReplayDue, format_of, input_columns, input_names, input_paths, inputs_by, named_fault, paths_read, records_before};
ghost use Rattle.run_jobs.specs.InputFiles.{input_limit};
ghost use Rattle.run_jobs.specs.Outcome.{IsLimitTold, LibraryLeft, IsDecided};

mod copies;
mod names;
mod texts;

use copies::copies_of;
use names::input_names;
use out_of_memory::Memory;
use pd_outside::Library;
use plan_stages::{Inputs, read_in_turn};
use refusals::{FileName, InputCause, InputFault, JobFault};
use request_words::{Format, Header, Request};
use run_jobs::file_names::paths_in;
use run_jobs::job::Job;
use schema_model::{Sequence, Texts};
use std::alloc::Global;
use stream_apply::KeyFields;
use texts::{replayed_texts, written_job};

/// The most bytes that all inputs can have together.
const INPUT_LIMIT: u64 = 268_435_456;

/// How the inputs of a table make a text.
#[derive(Clone, Copy, Debug, PartialEq, Eq)]
pub enum Way {
    /// The inputs are a text and the streams of later units. The streams are applied to lines whose key has so many fields.
    Apply(KeyFields),
    /// The inputs are a text and the undo texts down to an earlier unit.
    Undo,
}

/// What a mode replays.
pub struct Replay {
    /// How the inputs make texts.
    pub way: Way,
    /// The names of the tables, 1 to 64.
    pub names: Texts,
    /// For inputs and texts in CSV, the names of the columns of each table; None for COPY text form.
    pub csv: Option<Sequence<Texts>>,
}

impl Drop for Replay {
    fn drop(self) {
        let Replay { way: _, names, csv } = self;
        drop(names);
        drop(csv);
    }
}

impl Replay {
    /// Returns the format of the inputs and the texts.
    fn format(&self) -> Format
        ensures { result ≡ format_of self.now }
    {
        match &self.csv {
            None => Format::Copy,
            Some(_) => Format::Csv,
        }
    }

    /// Returns how many records stand before the rows of an input, by what files in CSV begin with.
    fn records_before(&self, header: Header) -> u64
        ensures { result ≡ records_before header self.now.csv }
    {
        match (&self.csv, header) {
            (None, _) | (Some(_), Header::None) => 0,
            (Some(_), Header::Names) => 1,
        }
    }
}

/// Returns the number of inputs of a table.
fn inputs_by(way: Way, from: u64, to: u64) -> usize
    requires { AreUnitsOf way from to }
    ensures inputs { result ≡ inputs_by way from to }
    ensures some { 1 ≤ result }
    ensures most { result ≤ 30001 }
{
    match way {
        Way::Apply(_) => 1 + 3 * (to - from) as usize,
        Way::Undo => 1 + (from - to) as usize,
    }
}

/// Returns the refusal of the input of a number, counted from 0, by its name.
fn fault_at(names: &Texts, number: usize, cause: InputCause) -> JobFault
    requires { number < length names.now }
    ensures { result ≡ named_fault names.now number cause }
{
    let name = names.get(number).as_str().as_bytes();
    JobFault::Input(InputFault {
        file: FileName::of(&name[..name.len().min(FileName::ROOM)]),
        cause,
    })
}

/// Returns the job of a replay. The inputs are read and replayed before any file is written.
pub(crate) fn replay_files<L: Library>(
    alloc: Global,
    library: &mut L,
    delimiter: u8,
    replay: &Replay,
    request: &Request,
) -> Result<Job, JobFault>
    requires read_out { IsReadOut (L.content library.old) }
    requires delimiter { IsDelimiter delimiter }
    requires can { CanReplay request.now replay.now }
    ensures job { IfSome (told_files (L.content library.old)) (λ files. IsDecided job_status due_of (IsReplayDue delimiter request.now replay.now files) result) }
    ensures can { IfOk result CanFill }
    ensures left { LibraryLeft (ended job_status result) (IsLimitTold result) (told_files (L.content library.old)) (L.content library.new)
        (L.taken library.new) (L.is_started library.new) (L.counts library.old) (L.counts library.new) }
    ensures usable { ended job_status result ≢ 2 }
    ensures is_schema { ended job_status result ≢ 3 }
    ensures within { L.taken library.old ≤ input_limit → (ended job_status result ≡ 0) ⊎ (ended job_status result ≡ 9) → L.taken library.new ≤ input_limit }
    ensures asked_told { IfSome (told_files (L.content library.old)) (λ files.
        AskedPrefixOf (paths_read request.now replay.now files) (L.asked library.old) (L.asked library.new)) }
    ensures asked { AskedPrefixOf (input_paths request.now replay.now) (L.asked library.old) (L.asked library.new) }
    ensures unasked { AskedNone (L.asked library.old) (L.asked library.new) → L.taken library.new ≤ L.taken library.old }
{
    let names = match input_names(alloc, replay, request) {
        Ok(names) => names,
        Err(Memory) => return Err(JobFault::Memory),
    };
    let paths = match paths_in(alloc, request.source.as_str(), &names) {
        Ok(paths) => paths,
        Err(Memory) => return Err(JobFault::Memory),
    };
    match read_in_turn(alloc, library, &paths, INPUT_LIMIT) {
        Ok(inputs) => made_in(alloc, delimiter, replay, request, &names, &inputs),
        Err(fault) => Err(fault_at(&names, fault.number, InputCause::Reading(fault.cause))),
    }
}

/// Returns the job of inputs, which are read, in their format.
fn made_in(
    alloc: Global,
    delimiter: u8,
    replay: &Replay,
    request: &Request,
    names: &Texts,
    inputs: &Inputs,
) -> Result<Job, JobFault>
    requires delimiter { IsDelimiter delimiter }
    requires can { CanReplay request.now replay.now }
    requires names { names.now ≡ input_names request.now replay.now }
    requires alike { length inputs.now ≡ length names.now }
    ensures made { IsDecided job_status due_of (IsMadeIn replay.now.csv delimiter request.now replay.now inputs.now) result }
    ensures refused { IfErr result (λ fault. (job_status fault ≡ 7) ⊎ (job_status fault ≡ 9)) }
    ensures can { IfOk result CanFill }
{
    match &replay.csv {
        None => made_of(alloc, delimiter, replay, request, names, inputs),
        Some(tables) => {
            let copies = copies_of(alloc, delimiter, tables.as_slice(), request, names, inputs)?;
            made_of(alloc, delimiter, replay, request, names, &copies)
        }
    }
}

/// Returns the job of inputs in COPY text form.
fn made_of(
    alloc: Global,
    delimiter: u8,
    replay: &Replay,
    request: &Request,
    names: &Texts,
    inputs: &Inputs,
) -> Result<Job, JobFault>
    requires delimiter { IsDelimiter delimiter }
    requires can { CanReplay request.now replay.now }
    requires names { names.now ≡ input_names request.now replay.now }
    requires alike { length inputs.now ≡ length names.now }
    requires rows { IfSome replay.now.csv (λ tables. AreRowsOf delimiter (input_columns request.now tables) inputs.now) }
    ensures made { IsDecided job_status due_of (IsMadeOf delimiter request.now replay.now inputs.now) result }
    ensures refused { IfErr result (λ fault. (job_status fault ≡ 7) ⊎ (job_status fault ≡ 9)) }
    ensures can { IfOk result CanFill }
{
    let each = inputs_by(replay.way, request.from, request.to);
    let count = replay.names.len();
    let records = replay.records_before(request.header);
    let texts = replayed_texts(
        alloc, replay.way, delimiter, records, count, each, names, inputs,
    )?;
    match written_job(alloc, delimiter, replay, request, texts) {
        Ok(job) => Ok(job),
        Err(Memory) => Err(JobFault::Memory),
    }
}
