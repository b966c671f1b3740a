//! Files of tables as CSV.

ghost use Rattle.std.specs.Prelude.{◌≡◌, ◌⊎◌, [], ℕ, All, List, IfErr, IfOk, IsErrOf, OnOk, Some, length, map};
ghost use Rattle.csv_face.specs.Csv.{HasRows};
ghost use Rattle.pd_outside.specs.Files.{File};
ghost use Rattle.pd_outside.specs.Shelf.{HoldsPrefixOf, finish_files};
ghost use Rattle.refusals.specs.Statuses.{job_status};
ghost use Rattle.row_text.specs.Fields.{IsDelimiter};
ghost use Rattle.schema_facts.specs.Layout.{layout_of};
ghost use Rattle.update_box.specs.Packages.{IsJobOf, chosen_places};
ghost use Rattle.update_box.specs.Parts.{parts_of};
ghost use Rattle.run_jobs.specs.CsvFiles.{IsCsvOfJob, job_headings};
ghost use Rattle.run_jobs.specs.DueFiles.{table_files};
ghost use Rattle.run_jobs.specs.Formats.{AreCsvOf, each_after, file_name, made_files};
ghost use Rattle.table_jobs.specs.InMemory.{no_files};
ghost use Rattle.run_jobs.specs.Jobs.{due_of, CanFill};
ghost use Rattle.run_jobs.specs.Outcome.{IsDecided};

use crate::text_shelf::TextShelf;
use out_of_memory::Memory;
use pd_outside::Files;
use plan_stages::Inputs;
use range_workers::RunFault;
use refusals::JobFault;
use request_words::{Format, OptionName, Request};
use run_jobs::csv_texts::{joined, push_csv};
use run_jobs::headings::job_headings;
use run_jobs::job::{FilesJob, Job, TablesJob};
use run_jobs::names::Directory;
use std::alloc::Global;
use update_box::{Content, places_of};

/// Returns files in COPY text form as CSV, each after its heading.
fn csv_of_files(
    alloc: Global,
    files: &Files,
    headings: &Inputs,
    delimiter: u8,
) -> Result<Inputs, Memory>
    requires delimiter { IsDelimiter delimiter }
    requires rows { All (λ (file : File). HasRows delimiter file.bytes) files.now }
    requires alike { length headings.now ≡ length files.now }
    ensures csvs { IfOk result (λ csvs. (rows : List (List ℕ)) × AreCsvOf delimiter (map (λ (file : File). file.bytes) files.now) rows × (csvs ≡ each_after headings.now rows)) }
    ensures count { IfOk result (λ csvs. length csvs ≡ length files.now) }
{
    let mut csvs = Inputs::new(alloc);
    for place in 0..files.len() {
        push_csv(
            alloc,
            &mut csvs,
            headings.get(place),
            files.bytes(place),
            delimiter,
        )?;
    }
    Ok(csvs)
}

/// Returns the job that writes files in COPY text form as CSV, one for each of the contents of each of the job's tables. They go to
/// the request's directory, or to the standard output if there is none.
fn made_job(
    alloc: Global,
    job: &TablesJob,
    contents: &[Content],
    files: &Files,
    request: &Request,
) -> Result<Job, Memory>
    requires asked { IsJobOf job.now.plan job.now.asked }
    requires files { files.now ≡ table_files contents.now job.now.plan (Some []) job.now.asked }
    ensures made { IfOk result (λ made. (csvs : List (List ℕ)) × AreCsvOf (layout_of job.now.plan).delimiter (map (λ (file : File). file.bytes) files.now) csvs
        × (due_of made ≡ made_files (file_name Format.Csv job.now.plan.schema job.now.asked.unit) request.now.out (parts_of contents.now (chosen_places job.now.plan job.now.asked.table))
        (each_after (job_headings contents.now job.now.plan request.now job.now.asked) csvs))) }
    ensures can { IfOk result CanFill }
{
    let _limits = job.plan.schema(); // a table has a column at least
    let headings = job_headings(alloc, job, contents, request)?;
    let csvs = csv_of_files(alloc, files, &headings, job.plan.delimiter())?;
    let Some(directory) = &request.out else {
        return Ok(Job::Text(joined(alloc, &csvs)?));
    };
    let directory = Directory {
        plan: &job.plan,
        name: directory.as_str(),
        format: Format::Csv,
    };
    let places = places_of(&job.plan, job.asked.table);
    let names = directory.paths(alloc, places, job.asked.unit, contents)?;
    Ok(Job::Files(FilesJob { names, texts: csvs }))
}

/// Returns the job that writes the contents of a job's tables as CSV. The contents were written in COPY text form onto a shelf in
/// memory, each to a file of its own. Refuses the format if they passed the shelf's limit, and fails with `Memory` if memory ran
/// out.
pub(crate) fn csv_job(
    alloc: Global,
    job: &TablesJob,
    contents: &[Content],
    written: Result<(), RunFault>,
    shelf: &TextShelf,
    request: &Request,
) -> Result<Job, JobFault>
    requires asked { IsJobOf job.now.plan job.now.asked }
    requires files { OnOk written (shelf.now.shelf.held ≡ finish_files (table_files contents.now job.now.plan (Some []) job.now.asked) no_files) }
    requires prefix { IsErrOf written RunFault.Write → HoldsPrefixOf (table_files contents.now job.now.plan (Some []) job.now.asked) (Some no_files) (Some shelf.now.shelf.held) }
    requires memory { IsErrOf written RunFault.Memory → shelf.now.shelf.held ≡ no_files }
    ensures job { IsDecided job_status due_of (IsCsvOfJob contents.now job.now.plan request.now job.now.asked) result }
    ensures refused { IfErr result (λ fault. (job_status fault ≡ 7) ⊎ (job_status fault ≡ 8)) }
    ensures can { IfOk result CanFill }
{
    if shelf.is_past_limit() {
        return Err(JobFault::Range(OptionName::Format));
    }
    match written {
        Ok(()) => {}
        Err(_) => return Err(JobFault::Memory),
    }
    match made_job(alloc, job, contents, shelf.finished(), request) {
        Ok(made) => Ok(made),
        Err(_) => Err(JobFault::Memory),
    }
}
