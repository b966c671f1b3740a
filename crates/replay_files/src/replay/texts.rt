//! The texts that inputs make, table by table.

ghost use Rattle.std.specs.Prelude.{◌≡◌, ◌≢◌, ◌<◌, ◌≤◌, ◌*◌, All, IfErr, IfOk, IfSome, MatchOption, length, map};
ghost use Rattle.csv_face.specs.Csv.{HasRows};
ghost use Rattle.refusals.specs.declared.refusal.InputCause.TheVariants as cause;
ghost use Rattle.refusals.specs.declared.refusal.LineFault.{LineFault as Line};
ghost use Rattle.row_text.specs.Fields.{IsDelimiter};
ghost use Rattle.run_jobs.specs.Jobs.{due_of, CanFill};
ghost use Rattle.replay_files.specs.Replay.{AreDueFor, AreReplayed, IsCsvOfTables, IsReplayFaultAt, IsReplayedText, IsUnreplayed, cause_after, fault_after, fault_told};

use crate::replay::copies::written_in;
use crate::replay::names::text_names;
use crate::replay::{Replay, Way, fault_at};
use out_of_memory::Memory;
use plan_stages::Inputs;
use refusals::{InputCause, JobFault, LineFault, LineReason};
use request_words::Request;
use run_jobs::csv_texts::joined;
use run_jobs::file_names::paths_in;
use run_jobs::job::{FilesJob, Job};
use schema_model::Texts;
use std::alloc::Global;
use stream_apply::{ApplyFault, apply_in_turn};
use undo_streams::{RevertFault, revert_in_turn};

/// Why the inputs of a table make no text.
#[derive(Clone, Copy)]
struct Stop {
    /// The place of the input at fault among the table's inputs, counted from 0.
    place: usize,
    /// What is wrong with it; None for want of memory, which no input causes.
    cause: Option<InputCause>,
}

/// Returns what is wrong with an input that isn't applied; None for want of memory.
fn applying(fault: ApplyFault) -> Option<InputCause>
    ensures { MatchOption result (fault ≡ ApplyFault.Memory) (λ told. (told ≡ cause.Applying fault) × (fault ≢ ApplyFault.Memory)) }
{
    match fault {
        ApplyFault::Memory => None,
        ApplyFault::BadLine { .. }
        | ApplyFault::DoubleKey { .. }
        | ApplyFault::NoSuchKey { .. }
        | ApplyFault::KeyExists { .. } => Some(InputCause::Applying(fault)),
    }
}

/// Returns what is wrong with an input that isn't undone; None for want of memory.
fn reverting(fault: RevertFault) -> Option<InputCause>
    ensures { MatchOption result (fault ≡ RevertFault.Memory) (λ told. (line : Line) × (told ≡ cause.Reverting line) × (fault_told line ≡ fault)) }
{
    let (line, reason) = match fault {
        RevertFault::BadLine { line } => (line, LineReason::BadLine),
        RevertFault::DoubleKey { line } => (line, LineReason::DoubleKey),
        RevertFault::NoSuchKey { line } => (line, LineReason::NoSuchKey),
        RevertFault::KeyExists { line } => (line, LineReason::KeyExists),
        RevertFault::BadPlace { line } => (line, LineReason::BadPlace),
        RevertFault::Memory => return None,
    };
    Some(InputCause::Reverting(LineFault { line, reason }))
}

/// Returns the text that the inputs of a table make. Stops at the first input at fault.
fn replayed_text(
    alloc: Global,
    way: Way,
    inputs: &[Vec<u8>],
    delimiter: u8,
) -> Result<Vec<u8>, Stop>
    requires delimiter { IsDelimiter delimiter }
    requires some { 1 ≤ length inputs.now }
    ensures replayed { IfOk result (λ text. IsReplayedText way delimiter (map (λ input. input.items) inputs.now) text.items) }
    ensures stop { IfErr result (λ stop. IfSome stop.cause (λ cause. (stop.place < length inputs.now)
        × IsReplayFaultAt way delimiter (map (λ input. input.items) inputs.now) stop.place cause)) }
{
    match way {
        Way::Apply(keys) => match apply_in_turn(alloc, inputs, keys, delimiter) {
            Ok(text) => Ok(text),
            Err(told) => Err(Stop {
                place: told.place,
                cause: applying(told.fault),
            }),
        },
        Way::Undo => match revert_in_turn(alloc, inputs, delimiter) {
            Ok(text) => Ok(text),
            Err(told) => Err(Stop {
                place: told.place,
                cause: reverting(told.fault),
            }),
        },
    }
}

/// Returns a fault as it is told if so many records stand before the lines. Returns None if the line's number is past 64 bits.
fn fault_after(fault: ApplyFault, records: u64) -> Option<ApplyFault>
    ensures { IfSome result (λ told. told ≡ fault_after records fault) }
{
    let told = match fault {
        ApplyFault::BadLine { line } => ApplyFault::BadLine {
            line: line.checked_add(records)?,
        },
        ApplyFault::DoubleKey { line } => ApplyFault::DoubleKey {
            line: line.checked_add(records)?,
        },
        ApplyFault::NoSuchKey { line } => ApplyFault::NoSuchKey {
            line: line.checked_add(records)?,
        },
        ApplyFault::KeyExists { line } => ApplyFault::KeyExists {
            line: line.checked_add(records)?,
        },
        ApplyFault::Memory => ApplyFault::Memory,
    };
    Some(told)
}

/// Returns what is wrong with an input as it is told if so many records stand before its lines. Returns None if the line's number is past
/// 64 bits.
fn cause_after(cause: InputCause, records: u64) -> Option<InputCause>
    ensures { IfSome result (λ told. told ≡ cause_after records cause) }
{
    match cause {
        InputCause::Applying(fault) => Some(InputCause::Applying(fault_after(fault, records)?)),
        InputCause::Reading(_) | InputCause::BadRecord(_) | InputCause::Reverting(_) => Some(cause),
    }
}

/// Returns the texts that the inputs of so many tables make, each table having `each` inputs. So many records stand before the lines of each
/// input. Refuses the first input at fault.
pub(super) fn replayed_texts(
    alloc: Global,
    way: Way,
    delimiter: u8,
    records: u64,
    count: usize,
    each: usize,
    names: &Texts,
    inputs: &Inputs,
) -> Result<Inputs, JobFault>
    requires delimiter { IsDelimiter delimiter }
    requires alike { length inputs.now ≡ length names.now }
    requires inputs { length inputs.now ≡ count * each }
    requires few { count ≤ 64 }
    requires some { 1 ≤ each }
    requires most { each ≤ 30001 }
    ensures count { IfOk result (λ texts. length texts ≡ count) }
    ensures replayed { IfOk result (AreReplayed way delimiter each inputs.now) }
    ensures fault { IfErr result (IsUnreplayed way delimiter records names.now each inputs.now count) }
{
    let mut texts = Inputs::new(alloc);
    for place in 0..count {
        let from = place * each;
        let own = &inputs.as_slice()[from..from + each];
        match replayed_text(alloc, way, own, delimiter) {
            Ok(text) => match texts.push(text) {
                Ok(()) => {}
                Err(_) => return Err(JobFault::Memory),
            },
            Err(stop) => {
                let Some(cause) = stop.cause else {
                    return Err(JobFault::Memory);
                };
                let Some(told) = cause_after(cause, records) else {
                    return Err(JobFault::Memory); // no memory holds so many lines
                };
                return Err(fault_at(names, from + stop.place, told));
            }
        }
    }
    Ok(texts)
}

/// Returns the job of texts of tables, in their format: files in a directory, or the standard output.
pub(super) fn written_job(
    alloc: Global,
    delimiter: u8,
    replay: &Replay,
    request: &Request,
    texts: Inputs,
) -> Result<Job, Memory>
    requires delimiter { IsDelimiter delimiter }
    requires count { length texts ≡ length replay.now.names }
    requires csv { IfSome replay.now.csv (IsCsvOfTables replay.now.way (length replay.now.names)) }
    requires rows { IfSome replay.now.csv (λ tables. All (HasRows delimiter) texts) }
    ensures made { IfOk result (λ job. AreDueFor delimiter request.now replay.now texts (due_of job)) }
    ensures can { IfOk result CanFill }
{
    let written = written_in(alloc, &replay.csv, request.header, texts, delimiter)?;
    let Some(directory) = &request.out else {
        return Ok(Job::Text(joined(alloc, &written)?));
    };
    let names = text_names(alloc, replay)?;
    let names = paths_in(alloc, directory.as_str(), &names)?;
    Ok(Job::Files(FilesJob {
        names,
        texts: written,
    }))
}
