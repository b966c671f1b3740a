//! Inputs and texts in CSV, and what they are in COPY text form.

ghost use Rattle.std.specs.Prelude.{◌≡◌, ◌+◌, ◌-◌, ◌*◌, ◌++◌, ℕ, All, Err, IfErr, IfOk, IfSome, List, OnOk, length, map, zip};
ghost use Rattle.csv_face.specs.Csv.{HasRows};
ghost use Rattle.csv_face.specs.Reading.{IsCsvFault, IsNamedFault};
ghost use Rattle.row_text.specs.Fields.{IsDelimiter};
ghost use Rattle.run_jobs.specs.Formats.{AreCsvOf, AreRowsOf, AreWritten, each_after, heading_of};
ghost use Rattle.replay_files.specs.Replay.{AreColumns, IsInOrder, IsUnreadRecord, format_by, input_columns, text_headings};
ghost use Rattle.run_jobs.specs.InputFiles.{AreReadAs, HasBadIn, IsReadIn, names_in};

use crate::replay::fault_at;
use csv_face::{CsvFault, from_csv, from_csv_named};
use out_of_memory::Memory;
use plan_stages::Inputs;
use refusals::{InputCause, JobFault};
use request_words::{Header, Request};
use run_jobs::csv_texts::push_csv;
use run_jobs::headings::{heading_of, names_for};
use schema_model::{Sequence, Text, Texts};
use std::alloc::Global;
use update_box::Content;

/// Appends the names of the columns of a table's inputs: of its text, and of the streams of so many units. The table has columns with such
/// names.
fn push_columns<'a>(
    columns: &mut Vec<&'a [Text]>,
    names: &'a [Text],
    units: u64,
) -> Result<(), Memory>
    ensures { OnOk result (map (λ own. own.now) columns.new.items ≡ map (λ own. own.now) columns.old.items ++ names_in units names.entry.now) }
{
    columns.push(names)?;
    for _unit in 0..units {
        columns.push(names_for(names, Content::Deleted))?;
        columns.push(names)?; // of what is updated
        columns.push(names)?; // of what is inserted
    }
    Ok(())
}

/// Returns the names of the columns of each input of tables with such columns.
fn input_columns<'a>(
    alloc: Global,
    tables: &'a [Texts],
    request: &Request,
) -> Result<Vec<&'a [Text]>, Memory>
    requires order { IsInOrder request.now.from request.now.to }
    ensures { IfOk result (λ columns. map (λ own. own.now) columns.items ≡ input_columns request.now tables.entry.now) }
{
    let mut columns = Vec::new(alloc);
    for place in 0..tables.len() {
        push_columns(
            &mut columns,
            tables[place].as_slice(),
            request.to - request.from,
        )?;
    }
    Ok(columns)
}

/// Returns an input in CSV with such columns as it is in COPY text form. Refuses the first bad record.
fn copy_of(
    alloc: Global,
    delimiter: u8,
    header: Header,
    names: &[Text],
    input: &[u8],
) -> Result<Vec<u8>, CsvFault>
    requires delimiter { IsDelimiter delimiter }
    requires columns { AreColumns names.now }
    ensures read { IfOk result (λ copy. IsReadIn header delimiter (names.now, input.now) copy.items) }
    ensures bad { IfErr result (λ fault. (at : ℕ) → fault ≡ CsvFault.BadRecord at → HasBadIn header names.now input.now at) }
{
    match header {
        Header::None => from_csv(alloc, input, delimiter, names.len() as u32),
        Header::Names => from_csv_named(alloc, input, delimiter, names),
    }
}

/// Returns inputs in CSV as they are in COPY text form, for tables with such columns. Refuses the first input that has a bad record.
pub(super) fn copies_of(
    alloc: Global,
    delimiter: u8,
    tables: &[Texts],
    request: &Request,
    names: &Texts,
    inputs: &Inputs,
) -> Result<Inputs, JobFault>
    requires delimiter { IsDelimiter delimiter }
    requires order { IsInOrder request.now.from request.now.to }
    requires columns { All AreColumns tables.now }
    requires fields { length inputs.now ≡ length tables.now * (1 + 3 * (request.now.to - request.now.from)) }
    requires alike { length inputs.now ≡ length names.now }
    ensures read { IfOk result (AreReadAs request.now.header delimiter (zip (input_columns request.now tables.now) inputs.now)) }
    ensures rows { IfOk result (AreRowsOf delimiter (input_columns request.now tables.now)) }
    ensures count { IfOk result (λ copies. length copies ≡ length inputs.now) }
    ensures bad { IfErr result (IsUnreadRecord request.now.header delimiter names.now (zip (input_columns request.now tables.now) inputs.now)) }
{
    let columns = match input_columns(alloc, tables, request) {
        Ok(columns) => columns,
        Err(Memory) => return Err(JobFault::Memory),
    };
    read_csv(
        alloc,
        delimiter,
        request.header,
        columns.as_slice(),
        names,
        inputs,
    )
}

/// Returns inputs in CSV, each with its columns, as they are in COPY text form. Refuses the first input that has a bad record.
fn read_csv(
    alloc: Global,
    delimiter: u8,
    header: Header,
    columns: &[&[Text]],
    names: &Texts,
    inputs: &Inputs,
) -> Result<Inputs, JobFault>
    requires delimiter { IsDelimiter delimiter }
    requires fields { length columns.now ≡ length inputs.now }
    requires columns { All AreColumns (map (λ own. own.now) columns.now) }
    requires alike { length inputs.now ≡ length names.now }
    ensures read { IfOk result (AreReadAs header delimiter (zip (map (λ own. own.now) columns.now) inputs.now)) }
    ensures rows { IfOk result (AreRowsOf delimiter (map (λ own. own.now) columns.now)) }
    ensures count { IfOk result (λ copies. length copies ≡ length inputs.now) }
    ensures bad { IfErr result (IsUnreadRecord header delimiter names.now (zip (map (λ own. own.now) columns.now) inputs.now)) }
{
    let mut copies = Inputs::new(alloc);
    for number in 0..inputs.len() {
        match copy_of(
            alloc,
            delimiter,
            header,
            columns[number],
            inputs.get(number),
        ) {
            Ok(text) => match copies.push(text) {
                Ok(()) => {}
                Err(_) => return Err(JobFault::Memory),
            },
            Err(CsvFault::BadRecord { number: at }) => {
                return Err(fault_at(names, number, InputCause::BadRecord(at)));
            }
            Err(CsvFault::Memory) => return Err(JobFault::Memory),
        }
    }
    Ok(copies)
}

/// Returns texts in COPY text form as they are written: as they are, or as CSV if the names of the columns of each table are told.
pub(super) fn written_in(
    alloc: Global,
    csv: &Option<Sequence<Texts>>,
    header: Header,
    texts: Inputs,
    delimiter: u8,
) -> Result<Inputs, Memory>
    requires delimiter { IsDelimiter delimiter }
    requires alike { IfSome csv.now (λ tables. length tables ≡ length texts) }
    requires rows { IfSome csv.now (λ tables. All (HasRows delimiter) texts) }
    ensures written { IfOk result (λ written. (rows : List (List ℕ)) × AreWritten (format_by csv.now) delimiter texts rows
        × (written ≡ each_after (text_headings header csv.now) rows)) }
    ensures count { IfOk result (λ written. length written ≡ length texts) }
{
    match csv {
        None => Ok(texts),
        Some(tables) => csv_of_texts(alloc, tables.as_slice(), header, &texts, delimiter),
    }
}

/// Returns texts in COPY text form of tables with such columns as CSV, each after its heading.
fn csv_of_texts(
    alloc: Global,
    tables: &[Texts],
    header: Header,
    texts: &Inputs,
    delimiter: u8,
) -> Result<Inputs, Memory>
    requires delimiter { IsDelimiter delimiter }
    requires alike { length tables.now ≡ length texts.now }
    requires rows { All (HasRows delimiter) texts.now }
    ensures csvs { IfOk result (λ csvs. (rows : List (List ℕ)) × AreCsvOf delimiter texts.now rows × (csvs ≡ each_after (map (heading_of header) tables.now) rows)) }
    ensures count { IfOk result (λ csvs. length csvs ≡ length texts.now) }
{
    let mut csvs = Inputs::new(alloc);
    for place in 0..texts.len() {
        let heading = heading_of(alloc, header, tables[place].as_slice())?;
        push_csv(
            alloc,
            &mut csvs,
            heading.as_slice(),
            texts.get(place),
            delimiter,
        )?;
    }
    Ok(csvs)
}
