//! From COPY text form to CSV.

ghost use Rattle.std.specs.Prelude.{◌≡◌, ◌<◌, ◌≤◌, ◌∷◌, ◌++◌, [], ℕ, List, IfOk, OnOk, false, length, take, true};
ghost use Rattle.std.specs.List.{list_all};
ghost use Rattle.csv.specs.Records.{fields_of, partial_of};
ghost use Rattle.csv_face.specs.Csv.{HasRows, IsCsvOf, names_text, record_text, records_text};
ghost use Rattle.csv_face.specs.Scan.{byte_of, is_plain, records_behind, with_byte, with_letter};
ghost use Rattle.csv_face.specs.Scanners.{ArePlain, HasWritten, WillWrite};
ghost use Rattle.row_text.specs.Fields.{IsDelimiter};

use crate::alike::{alike_size, push_alike};
use csv::{ByteRecord, Writer, WriterBuilder};
use out_of_memory::Memory;
use schema_model::Text;
use std::alloc::Global;

/// How many bytes are read one by one where a line isn't written alike, before lines that are so are looked for again.
const ONE_BY_ONE: usize = 4096;

/// A text that is being read, and the CSV written so far.
struct Scanner {
    writer: Writer<Vec<u8>>,
    /// The fields of the current record that are complete.
    fields: ByteRecord,
    /// The bytes of the current field.
    field: Vec<u8>,
    /// Whether a backslash was read, and its letter wasn't yet.
    is_escape: bool,
}

impl Drop for Scanner {
    fn drop(self) {
        let Scanner {
            writer,
            fields,
            field,
            is_escape: _,
        } = self;
        drop(writer);
        drop(fields);
        drop(field);
    }
}

/// Returns the byte that a backslash and a letter stand for.
fn byte_of(letter: u8) -> u8
    ensures { result ≡ byte_of letter }
{
    match letter {
        b'b' => 8,
        b't' => 9,
        b'n' => 10,
        b'v' => 11,
        b'f' => 12,
        b'r' => 13,
        itself => itself,
    }
}

/// Appends a byte of a text to the field of a record that holds the text.
fn put_byte(field: &mut Vec<u8>, byte: u8) -> Result<(), Memory>
    ensures { OnOk result (field.new.items ≡ with_byte field.old.items byte) }
{
    if byte == b'\\' && field.is_empty() {
        field.push(b'\\')?;
    }
    field.push(byte)?;
    Ok(())
}

/// Appends the bytes that a backslash and a letter stand for.
fn put_letter(field: &mut Vec<u8>, letter: u8) -> Result<(), Memory>
    ensures { OnOk result (field.new.items ≡ with_letter field.old.items letter) }
{
    if letter == b'N' {
        field.extend_from_slice(b"\\N")?;
        Ok(())
    } else {
        put_byte(field, byte_of(letter))
    }
}

impl Scanner {
    /// Starts after the CSV of what was read before, between two records.
    fn new(alloc: Global, csv: Vec<u8>) -> Scanner
        ensures { (delimiter : ℕ) (text : List ℕ) →
            WillWrite delimiter result (csv.items ++ records_text (records_behind delimiter [] [] false text)) text }
    {
        Scanner {
            writer: WriterBuilder::new().from_writer(csv),
            fields: ByteRecord::new(alloc),
            field: Vec::new(alloc),
            is_escape: false,
        }
    }

    /// Tells whether it stands between two records.
    fn is_between(&self) -> bool
        ensures { result ≡ true → (delimiter : ℕ) (rest : List ℕ) →
            records_behind delimiter (fields_of self.now.fields) self.now.field.items self.now.is_escape rest ≡ records_behind delimiter [] [] false rest }
    {
        !self.is_escape && self.field.is_empty() && self.fields.is_empty()
    }

    /// Reads one more byte.
    #[tactic(auto, unfolding(crate::specs::Scan::records_behind))]
    fn read(&mut self, byte: u8, delimiter: u8) -> Result<(), Memory>
        ensures { (whole rest : List ℕ) → WillWrite delimiter self.old whole (byte ∷ rest) →
            OnOk result (WillWrite delimiter self.new whole rest) }
    {
        if self.is_escape {
            self.is_escape = false;
            return put_letter(&mut self.field, byte);
        }
        if byte == b'\\' {
            self.is_escape = true;
            return Ok(());
        }
        if byte == delimiter {
            return self.end_field();
        }
        if byte == b'\n' {
            return self.end_record();
        }
        self.field.push(byte)?;
        Ok(())
    }

    /// Returns how many bytes at the beginning of what is read next stand for themselves.
    fn plain_size(&self, text: &[u8], delimiter: u8) -> usize
        ensures within { result ≤ length text.now }
        ensures plain { ArePlain delimiter self.now (take result text.now) }
    {
        if self.is_escape {
            0
        } else {
            plain_size(text, delimiter)
        }
    }

    /// Reads bytes that stand for themselves.
    fn read_plain(&mut self, bytes: &[u8]) -> Result<(), Memory>
        ensures { (delimiter : ℕ) (whole rest : List ℕ) → ArePlain delimiter self.old bytes.now → WillWrite delimiter self.old whole (bytes.now ++ rest) →
            OnOk result (WillWrite delimiter self.new whole rest) }
    {
        self.field.extend_from_slice(bytes)?;
        Ok(())
    }

    /// Reads bytes that stand for themselves, and one more byte. Returns the text after them.
    fn read_run<'a>(&mut self, text: &'a [u8], delimiter: u8) -> Result<&'a [u8], Memory>
        ensures shorter { IfOk result (λ rest. length rest.now ≤ length text.now × (0 < length text.now → length rest.now < length text.now)) }
        ensures read { (whole : List ℕ) → WillWrite delimiter self.old whole text.now → IfOk result (λ rest. WillWrite delimiter self.new whole rest.now) }
    {
        let size = self.plain_size(text, delimiter);
        self.read_plain(&text[..size])?;
        let rest = &text[size..];
        if let [byte, behind @ ..] = rest {
            self.read(*byte, delimiter)?;
            return Ok(behind);
        }
        Ok(rest)
    }

    /// Completes the current field.
    fn end_field(&mut self) -> Result<(), Memory>
        ensures same { OnOk result (self.new ≡ record self.old { fields = self.new.fields; field = self.new.field }) }
        ensures fields { OnOk result (fields_of self.new.fields ≡ fields_of self.old.fields ++ (partial_of self.old.fields ++ self.old.field.items) ∷ []) }
        ensures partial { OnOk result (partial_of self.new.fields ≡ []) }
        ensures field { OnOk result (self.new.field.items ≡ []) }
    {
        self.fields.push_field(self.field.as_slice())?;
        self.field.clear();
        Ok(())
    }

    /// Completes the current record and writes it.
    fn end_record(&mut self) -> Result<(), Memory>
        ensures written { (text : List ℕ) → HasWritten self.old text →
            OnOk result (HasWritten self.new (text ++ record_text (fields_of self.old.fields ++ self.old.field.items ∷ []))) }
        ensures fields { OnOk result (fields_of self.new.fields ≡ []) }
        ensures field { OnOk result (self.new.field.items ≡ []) }
        ensures escape { OnOk result (self.new.is_escape ≡ self.old.is_escape) }
    {
        self.end_field()?;
        let Ok(()) = self.writer.write_byte_record(&self.fields) else {
            return Err(Memory);
        };
        self.fields.clear();
        Ok(())
    }

    /// Returns the CSV of what was read.
    fn finish(self) -> Result<Vec<u8>, Memory>
        ensures { (text : List ℕ) → HasWritten self text → IfOk result (λ csv. csv.items ≡ text) }
    {
        let Scanner {
            writer,
            fields,
            field,
            is_escape: _,
        } = self;
        drop(fields);
        drop(field);
        match writer.into_inner() {
            Ok(text) => Ok(text),
            Err(_) => Err(Memory),
        }
    }
}

/// Tells whether a byte of a text stands for itself, if no backslash stands before it.
fn is_plain(byte: u8, delimiter: u8) -> bool
    ensures { result ≡ is_plain delimiter byte }
{
    byte != b'\\' && byte != delimiter && byte != b'\n'
}

/// Returns how many bytes at the beginning of a text stand for themselves.
fn plain_size(text: &[u8], delimiter: u8) -> usize
    ensures within { result ≤ length text.now }
    ensures plain { list_all (is_plain delimiter) (take result text.now) ≡ true }
{
    for place in 0..text.len() {
        if !is_plain(text[place], delimiter) {
            return place;
        }
    }
    text.len()
}

/// Appends records of a text to the CSV of those before them, byte by byte: all, or `ONE_BY_ONE` bytes of them and the rest of the last record.
/// Returns the CSV, and the text after these records.
fn push_records(
    alloc: Global,
    csv: Vec<u8>,
    text: &[u8],
    delimiter: u8,
) -> Result<(Vec<u8>, &[u8]), Memory>
    ensures shorter { IfOk result (λ p. length p.1.now ≤ length text.now × (0 < length text.now → length p.1.now < length text.now)) }
    ensures csv { IfOk result (λ p. p.0.items ++ records_text (records_behind delimiter [] [] false p.1.now)
        ≡ csv.items ++ records_text (records_behind delimiter [] [] false text.now)) }
{
    let mut scanner = Scanner::new(alloc, csv);
    let mut rest = text;
    while !rest.is_empty() {
        if text.len() - rest.len() >= ONE_BY_ONE && scanner.is_between() {
            return Ok((scanner.finish()?, rest));
        }
        rest = scanner.read_run(rest, delimiter)?;
    }
    Ok((scanner.finish()?, rest))
}

/// Returns the records of a text as CSV. Lines that CSV writes alike are taken together, and the records of others one by one.
fn scanned(alloc: Global, text: &[u8], delimiter: u8) -> Result<Vec<u8>, Memory>
    requires delimiter { IsDelimiter delimiter }
    ensures { IfOk result (λ csv. csv.items ≡ records_text (records_behind delimiter [] [] false text.now)) }
{
    let mut csv = Vec::new(alloc);
    let mut rest = text;
    while !rest.is_empty() {
        let (lines, others) = rest.split_at(alike_size(rest));
        push_alike(&mut csv, lines, delimiter)?;
        let (more, behind) = push_records(alloc, csv, others, delimiter)?;
        csv = more;
        rest = behind;
    }
    Ok(csv)
}

/// Returns a text in COPY text form as CSV, row by row. The text's lines are written with the delimiter and have the same number of fields.
pub fn to_csv(alloc: Global, text: &[u8], delimiter: u8) -> Result<Vec<u8>, Memory>
    requires delimiter { IsDelimiter delimiter }
    requires rows { HasRows delimiter text.now }
    ensures { IfOk result (λ csv. IsCsvOf delimiter text.now csv.items) }
{
    scanned(alloc, text, delimiter)
}

/// Returns a record whose fields are names.
fn record_of(alloc: Global, names: &[Text]) -> Result<ByteRecord, Memory>
    ensures { IfOk result (λ fields. fields_of fields ≡ names.now) }
{
    let mut fields = ByteRecord::new(alloc);
    for place in 0..names.len() {
        fields.push_field(names[place].as_str().as_bytes())?;
    }
    Ok(fields)
}

/// Returns names as the first record of CSV: with a comma between two of them, and a line feed at the end.
pub fn names_text(alloc: Global, names: &[Text]) -> Result<Vec<u8>, Memory>
    ensures { IfOk result (λ text. text.items ≡ names_text names.now) }
{
    let fields = record_of(alloc, names)?;
    let mut writer = WriterBuilder::new().from_writer(Vec::new(alloc));
    let Ok(()) = writer.write_byte_record(&fields) else {
        return Err(Memory);
    };
    match writer.into_inner() {
        Ok(text) => Ok(text),
        Err(_) => Err(Memory),
    }
}
