//! From CSV to COPY text form.

ghost use Rattle.std.specs.Prelude.{◌≡◌, ◌≢◌, ◌<◌, ◌≤◌, ◌+◌, ◌^◌, ◌∷◌, ◌++◌, [], ℕ, List, IfErr, IfOk, OnOk, false, length, map, option_copied, true};
ghost use Rattle.std.specs.List.{list_any};
ghost use Rattle.csv.specs.Reading.{AreRecords, default_config, error_kind, stops_reader, strip_bom};
ghost use Rattle.csv.specs.Records.{fields_of};
ghost use Rattle.csv.specs.declared.parser.State.TheVariants as st;
ghost use Rattle.row_text.specs.Fields.{IsDelimiter, field_text};
ghost use Rattle.row_text.specs.Lines.{line_text};
ghost use Rattle.csv_face.specs.Readers.{CanRead, StandsAfter};
ghost use Rattle.csv_face.specs.Reading.{IsCsvFault, IsFaultAfter, IsNamedFault, IsNamedReadAs, IsReadAfter, IsReadAs, is_bad_field, is_bad_record, row_field};

use crate::CsvFault;
use csv::{ByteRecord, Reader, ReaderBuilder};
use line_pages::PageBuf;
use out_of_memory::Memory;
use row_text::field_size;
use schema_model::Text;
use std::alloc::Global;

/// Tells whether a field of a record stands for no field of a row.
fn is_bad_field(field: &[u8]) -> bool
    ensures { result ≡ is_bad_field field.now }
{
    match field {
        [b'\\'] => true,
        [b'\\', b'N'] => false,
        [b'\\', b'\\', ..] => false,
        [b'\\', ..] => true,
        _ => false,
    }
}

/// Tells whether a record has a field that stands for no field of a row.
fn has_bad_field(fields: &ByteRecord) -> bool
    ensures { result ≡ list_any is_bad_field (fields_of fields.now) }
{
    for index in 0..fields.len() {
        if let Some(field) = fields.get(index) {
            if is_bad_field(field) {
                return true;
            }
        }
    }
    false
}

/// Tells whether a record has a wrong number of fields, or a field that stands for no field of a row.
fn is_bad_record(fields: &ByteRecord, count: u32) -> bool
    ensures { result ≡ is_bad_record count (fields_of fields.now) }
{
    fields.len() != count as usize || has_bad_field(fields)
}

/// Returns the field of a row that a field of a record stands for.
fn row_field(field: &[u8]) -> Option<&[u8]>
    ensures { option_copied result ≡ row_field field.now }
{
    match field {
        [b'\\', b'\\', ..] => Some(&field[1..]),
        [b'\\', ..] => None,
        _ => Some(field),
    }
}

/// The text so far, and the room in which its next field is written first.
struct Lines {
    alloc: Global,
    text: Vec<u8>,
    field: PageBuf,
}

impl Drop for Lines {
    fn drop(self) {
        let Lines {
            alloc: _,
            text,
            field,
        } = self;
        drop(text);
        drop(field);
    }
}

impl Lines {
    /// Returns a text without lines.
    fn new(alloc: Global) -> Result<Lines, Memory>
        ensures { IfOk result (λ lines. lines.text.items ≡ []) }
    {
        let field = PageBuf::with_room(alloc, 0)?;
        Ok(Lines {
            alloc,
            text: Vec::new(alloc),
            field,
        })
    }

    /// Empties the room for a field, and makes it at least `size` bytes.
    fn make_room(&mut self, size: usize) -> Result<(), Memory>
        ensures text { OnOk result (self.new.text ≡ self.old.text) }
        ensures empty { OnOk result (self.new.field.text ≡ []) }
        ensures room { OnOk result (size ≤ self.new.field.room) }
    {
        self.field.clear();
        if self.field.room() < size {
            self.field = PageBuf::with_room(self.alloc, size.saturating_mul(2))?;
        }
        Ok(())
    }

    /// Appends the field that a field of a record stands for.
    fn put_field(&mut self, field: &[u8], delimiter: u8) -> Result<(), Memory>
        requires { IsDelimiter delimiter }
        ensures { OnOk result (self.new.text.items ≡ self.old.text.items ++ field_text delimiter (row_field field.now)) }
    {
        let field = row_field(field);
        self.make_room(field_size(field, delimiter))?;
        row_text::put_field(&mut self.field, field, delimiter);
        self.text.extend_from_slice(self.field.text())?;
        Ok(())
    }

    /// Appends the line of a record.
    fn put_line(&mut self, fields: &ByteRecord, delimiter: u8) -> Result<(), Memory>
        requires { IsDelimiter delimiter }
        ensures { OnOk result (self.new.text.items ≡ self.old.text.items ++ (line_text delimiter (map row_field (fields_of fields.now)) ++ 10 ∷ [])) }
    {
        for index in 0..fields.len() {
            if let Some(field) = fields.get(index) {
                if index > 0 {
                    self.text.push(delimiter)?;
                }
                self.put_field(field, delimiter)?;
            }
        }
        self.text.push(b'\n')?;
        Ok(())
    }

    /// Returns the lines so far.
    fn into_text(self) -> Vec<u8>
        ensures { result ≡ self.text }
    {
        let Lines {
            alloc: _,
            text,
            field,
        } = self;
        drop(field);
        text
    }
}

/// Returns the fault for an error after which a reader gives no more records. Over bytes, memory ran out.
fn stopped(_error: csv::Error) -> CsvFault
    requires { stops_reader (error_kind _error) ≡ true }
    ensures { result ≡ CsvFault.Memory }
{
    CsvFault::Memory
}

/// Returns a reader of the records of bytes.
fn reader_of(alloc: Global, bytes: &[u8]) -> Reader<&[u8]>
    ensures can { CanRead result }
    ensures begins { StandsAfter bytes.now [] result }
{
    ReaderBuilder::new()
        .has_headers(false)
        .flexible(true) // so that want of memory isn't told for a record of another length
        .from_reader(alloc, bytes)
}

/// Reads the next record. Tells whether there is one. Fails only if memory runs out.
fn read_next(reader: &mut Reader<&[u8]>, fields: &mut ByteRecord) -> Result<bool, CsvFault>
    requires { CanRead reader.old }
    ensures can { OnOk result (CanRead reader.new) }
    ensures next { (bytes : List ℕ) (before : List (List (List ℕ))) → StandsAfter bytes before reader.old →
        IfOk result (λ found. found ≡ true → StandsAfter bytes (before ++ fields_of fields.new ∷ []) reader.new) }
    ensures end { (bytes : List ℕ) (before : List (List (List ℕ))) → StandsAfter bytes before reader.old →
        IfOk result (λ found. found ≡ false → AreRecords default_config st.StartRecord (strip_bom bytes) before) }
    ensures memory { IfErr result (λ fault. fault ≡ CsvFault.Memory) }
{
    match reader.read_byte_record(fields) {
        Ok(found) => Ok(found),
        Err(error) => Err(stopped(error)),
    }
}

/// Returns the text in COPY text form of the rows that a reader has left. `next` is the number of its next record, counted from 1. Refuses the
/// first bad record.
fn read_rows(
    alloc: Global,
    mut reader: Reader<&[u8]>,
    next: u64,
    delimiter: u8,
    fields: u32,
) -> Result<Vec<u8>, CsvFault>
    requires delimiter { IsDelimiter delimiter }
    requires can { CanRead reader }
    ensures read { (bytes : List ℕ) (first : List (List (List ℕ))) → StandsAfter bytes first reader.entry →
        IfOk result (λ text. IsReadAfter first delimiter fields bytes text.items) }
    ensures bad { (bytes : List ℕ) (first : List (List (List ℕ))) → StandsAfter bytes first reader.entry → next ≡ length first + 1 →
        IfErr result (IsFaultAfter first fields bytes) }
{
    let mut record = ByteRecord::new(alloc);
    let Ok(mut lines) = Lines::new(alloc) else {
        return Err(CsvFault::Memory);
    };
    for number in next..u64::MAX {
        if !read_next(&mut reader, &mut record)? {
            return Ok(lines.into_text());
        }
        if is_bad_record(&record, fields) {
            return Err(CsvFault::BadRecord { number });
        }
        if lines.put_line(&record, delimiter).is_err() {
            return Err(CsvFault::Memory);
        }
    }
    Err(CsvFault::Memory)
}

/// Tells whether the fields of a record are names, in order.
fn are_names(fields: &ByteRecord, names: &[Text]) -> bool
    ensures same { result ≡ true → fields_of fields.now ≡ names.now }
    ensures other { result ≡ false → fields_of fields.now ≢ names.now }
{
    if fields.len() != names.len() {
        return false;
    }
    for place in 0..names.len() {
        if let Some(field) = fields.get(place) {
            if field != names[place].as_str().as_bytes() {
                return false;
            }
        }
    }
    true
}

/// Returns the text in COPY text form of rows in CSV. Each row has `fields` fields, at least one, with the delimiter between two of them.
/// Each line ends with a line feed. Refuses the first bad record: it has a wrong number of fields, or a field that begins with only one
/// backslash and isn't `\N`.
pub fn from_csv(
    alloc: Global,
    bytes: &[u8],
    delimiter: u8,
    fields: u32,
) -> Result<Vec<u8>, CsvFault>
    requires delimiter { IsDelimiter delimiter }
    requires some { 0 < fields }
    ensures read { IfOk result (λ text. IsReadAs delimiter fields bytes.now text.items) }
    ensures bad { IfErr result (IsCsvFault fields bytes.now) }
{
    read_rows(alloc, reader_of(alloc, bytes), 1, delimiter, fields)
}

/// Returns the text in COPY text form of rows in CSV whose first record is names, at least one. Each row has as many fields as there are
/// names. Refuses the first bad record, as `from_csv` does. Record 1 is bad if it isn't the names, or if there is none.
pub fn from_csv_named(
    alloc: Global,
    bytes: &[u8],
    delimiter: u8,
    names: &[Text],
) -> Result<Vec<u8>, CsvFault>
    requires delimiter { IsDelimiter delimiter }
    requires some { 0 < length names.now }
    requires few { length names.now < 2 ^ 32 }
    ensures read { IfOk result (λ text. IsNamedReadAs delimiter names.now bytes.now text.items) }
    ensures bad { IfErr result (IsNamedFault names.now bytes.now) }
{
    let mut reader = reader_of(alloc, bytes);
    let mut first = ByteRecord::new(alloc);
    if !read_next(&mut reader, &mut first)? || !are_names(&first, names) {
        return Err(CsvFault::BadRecord { number: 1 });
    }
    read_rows(alloc, reader, 2, delimiter, names.len() as u32)
}
