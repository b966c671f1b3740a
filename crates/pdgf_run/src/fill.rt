//! Writing the files of a job onto a shelf.

ghost use Rattle.std.specs.Prelude.{◌≡◌, [], ◌∷◌, false, true, length, IsErrOf, OnErr, OnOk};
ghost use Rattle.std.specs.Option.{option_map};
ghost use Rattle.pd_outside.specs.Faults.{FailedAtLast, Unfailed};
ghost use Rattle.pd_outside.specs.Shelf.{HoldsPrefixOf, finish_files};
ghost use Rattle.run_jobs.specs.Jobs.{due_of, is_text, CanFill};
ghost use Rattle.run_jobs.specs.Formats.{named_files};

use fill_jobs::modes::details;
use fill_jobs::sql;
use pd_outside::{Failed, Gate, Shelf, WriteFailed, write_all};
use range_workers::RunFault;
use run_jobs::job::{FilesJob, Job};
use run_jobs::outputs::STANDARD_OUTPUT;
use std::alloc::Global;
use std::thread::Threads;
use table_jobs::modes::{snapshot, undo, unit};

/// Writes bytes to a file with a name.
fn write_file<S: Shelf>(shelf: &mut S, name: &str, bytes: &[u8]) -> Result<(), RunFault>
    requires none_begun { S.is_begun shelf.old ≡ false }
    ensures files { OnOk result (S.held shelf.new ≡ option_map (finish_files (record { name = name.now; bytes = bytes.now } ∷ [])) (S.held shelf.old)) }
    ensures prefix { OnErr result (HoldsPrefixOf (record { name = name.now; bytes = bytes.now } ∷ []) (S.held shelf.old) (S.held shelf.new)) }
    ensures write { OnErr result (IsErrOf result RunFault.Write) }
    ensures unfailed { OnOk result (Unfailed (S.counts shelf.old) (S.counts shelf.new)) }
    ensures failed { OnErr result (FailedAtLast (S.counts shelf.old) (S.counts shelf.new)) }
    ensures none_begun { OnOk result (S.is_begun shelf.new ≡ false) }
{
    match shelf.begin(name) {
        Ok(()) => {}
        Err(Failed) => return Err(RunFault::Write),
    }
    match write_all(shelf, bytes) {
        Ok(()) => {}
        Err(WriteFailed) => return Err(RunFault::Write),
    }
    match shelf.end() {
        Ok(()) => Ok(()),
        Err(Failed) => Err(RunFault::Write),
    }
}

/// Writes texts in turn, each to the file of its name. At a failure a prefix of the files stands.
fn write_files<S: Shelf>(shelf: &mut S, job: &FilesJob) -> Result<(), RunFault>
    requires alike { length job.now.names ≡ length job.now.texts }
    requires none_begun { S.is_begun shelf.old ≡ false }
    ensures files { OnOk result (S.held shelf.new ≡ option_map (finish_files (named_files job.now.names job.now.texts)) (S.held shelf.old)) }
    ensures prefix { OnErr result (HoldsPrefixOf (named_files job.now.names job.now.texts) (S.held shelf.old) (S.held shelf.new)) }
    ensures write { OnErr result (IsErrOf result RunFault.Write) }
    ensures unfailed { OnOk result (Unfailed (S.counts shelf.old) (S.counts shelf.new)) }
    ensures failed { OnErr result (FailedAtLast (S.counts shelf.old) (S.counts shelf.new)) }
    ensures none_begun { OnOk result (S.is_begun shelf.new ≡ false) }
{
    for place in 0..job.texts.len() {
        write_file(shelf, job.names.get(place).as_str(), job.texts.get(place))?;
    }
    Ok(())
}

/// Writes the files that are due for a job. At `Write` a prefix of them stands, and nothing more is begun. `Memory` comes only
/// before the first file is begun.
pub(crate) fn fill<R: Threads + Sync, S: Shelf, G: Gate + Sync>(
    rt: &R,
    alloc: Global,
    job: &Job,
    shelf: &mut S,
    gate: &G,
) -> Result<(), RunFault>
    requires can { CanFill job.now }
    requires none_begun { S.is_begun shelf.old ≡ false }
    ensures files { OnOk result (S.held shelf.new ≡ option_map (finish_files (due_of job.now)) (S.held shelf.old)) }
    ensures prefix { IsErrOf result RunFault.Write → HoldsPrefixOf (due_of job.now) (S.held shelf.old) (S.held shelf.new) }
    ensures failed { IsErrOf result RunFault.Write → FailedAtLast (S.counts shelf.old) (S.counts shelf.new) }
    ensures memory { IsErrOf result RunFault.Memory → shelf.new ≡ shelf.old }
    ensures text { is_text job.now ≡ true → OnErr result (IsErrOf result RunFault.Write) }
    ensures unfailed { OnOk result (Unfailed (S.counts shelf.old) (S.counts shelf.new)) }
    ensures none_begun { OnOk result (S.is_begun shelf.new ≡ false) }
{
    match job {
        Job::Text(bytes) => write_file(shelf, STANDARD_OUTPUT, bytes.as_slice()),
        Job::Page(page) => write_file(shelf, STANDARD_OUTPUT, page.text()),
        Job::Files(job) => write_files(shelf, job),
        Job::Snapshot(job) => snapshot::write_snapshot(rt, alloc, job, shelf, gate),
        Job::Unit(job) => unit::write_unit(rt, alloc, job, shelf, gate),
        Job::Script(job) => sql::write_script(rt, alloc, job, shelf, gate),
        Job::Undo(job) => undo::write_undo(rt, alloc, job, shelf, gate),
        Job::Details(job) => details::write_details(rt, alloc, job, shelf, gate),
    }
}
