//! Reading a line body back: its fields, or where it goes wrong.

ghost use Rattle.std.specs.Prelude.{◌≡◌, ◌≢◌, ℕ, [], ◌∷◌, ◌++◌, IfErr, IfNone, IfOk, IfSome};
ghost use Rattle.std.specs.Bool.{OnFalse, OnTrue};
ghost use Rattle.row_text.specs.Fields.{IsDelimiter, escaped};
ghost use Rattle.row_text.specs.Lines.{BeginsLineBody, IsLineBody};
ghost use Rattle.row_text.specs.declared.split_lines.Place.TheVariants.{Backslash, Null, Text};
ghost use Rattle.row_text.specs.SplitLines.{IsSplitFault, read_so_far};

use crate::escapes::letter_of;
use crate::field_list::Fields;
use out_of_memory::Memory;
use std::alloc::Global;

/// Why a line gives no fields.
#[derive(Clone, Copy, Debug, PartialEq, Eq)]
pub enum SplitFault {
    /// The bytes are no line body. `at` is the length of their longest prefix with which some line body begins, in bytes.
    BadAt { at: usize },
    /// Memory ran out.
    Memory,
}

impl From<Memory> for SplitFault {
    ghost use Rattle.row_text.specs.declared.split_lines.SplitFault.TheVariants.{Memory};

    ghost from_gives = { λ _ fault. fault ≡ Memory };

    fn from(_memory: Memory) -> SplitFault {
        SplitFault::Memory
    }
}

/// What stands before the next byte of a line.
#[derive(Clone, Copy)]
enum Place {
    /// The text of the field, as far as it is read.
    Text,
    /// The text of the field and a backslash.
    Backslash,
    /// A null field.
    Null,
}

/// A line as far as it is read: the fields that have ended, and the field after them.
#[derive(Drop)]
struct Reader {
    fields: Fields,
    text: Vec<u8>,
    place: Place,
}

/// Returns the fields of a line body that is written with this delimiter. Returns `BadAt` exactly if the bytes are no line body,
/// unless memory runs out before that is found.
pub fn split_line(alloc: Global, line: &[u8], delimiter: u8) -> Result<Fields, SplitFault>
    requires { IsDelimiter delimiter }
    ensures read { IfOk result (λ fields. IsLineBody delimiter fields line.now) }
    ensures bad { IfErr result (IsSplitFault delimiter line.now) }
{
    let mut reader = Reader {
        fields: Fields::new(alloc),
        text: Vec::new(alloc),
        place: Place::Text,
    };
    for (at, byte) in line.iter().enumerate() {
        if !read_byte(&mut reader, *byte, delimiter)? {
            return Err(SplitFault::BadAt { at });
        }
    }
    finish(reader, line, delimiter)
}

/// Reads one more byte. Returns false exactly if no line body goes on with it.
fn read_byte(reader: &mut Reader, byte: u8, delimiter: u8) -> Result<bool, Memory>
    requires { IsDelimiter delimiter }
    ensures read { IfOk result (λ taken. OnTrue taken (read_so_far delimiter reader.new ≡ read_so_far delimiter reader.old ++ byte ∷ [])) }
    ensures bad { IfOk result (λ taken. OnFalse taken (¬ BeginsLineBody delimiter (read_so_far delimiter reader.old ++ byte ∷ []))) }
{
    match reader.place {
        Place::Text => read_in_text(reader, byte, delimiter),
        Place::Backslash => read_letter(reader, byte, delimiter),
        Place::Null => read_behind_null(reader, byte, delimiter),
    }
}

/// Reads one more byte in a text, as `read_byte` does.
fn read_in_text(reader: &mut Reader, byte: u8, delimiter: u8) -> Result<bool, Memory>
    requires delimiter { IsDelimiter delimiter }
    requires place { reader.old.place ≡ Text }
    ensures read { IfOk result (λ taken. OnTrue taken (read_so_far delimiter reader.new ≡ read_so_far delimiter reader.old ++ byte ∷ [])) }
    ensures bad { IfOk result (λ taken. OnFalse taken (¬ BeginsLineBody delimiter (read_so_far delimiter reader.old ++ byte ∷ []))) }
{
    if byte == delimiter {
        reader.fields.push_text(&reader.text)?;
        reader.text.clear();
    } else if byte == b'\\' {
        reader.place = Place::Backslash;
    } else if letter_of(byte, delimiter).is_some() {
        return Ok(false);
    } else {
        reader.text.push(byte)?;
    }
    Ok(true)
}

/// Reads one more byte after a backslash, as `read_byte` does.
fn read_letter(reader: &mut Reader, letter: u8, delimiter: u8) -> Result<bool, Memory>
    requires delimiter { IsDelimiter delimiter }
    requires place { reader.old.place ≡ Backslash }
    ensures read { IfOk result (λ taken. OnTrue taken (read_so_far delimiter reader.new ≡ read_so_far delimiter reader.old ++ letter ∷ [])) }
    ensures bad { IfOk result (λ taken. OnFalse taken (¬ BeginsLineBody delimiter (read_so_far delimiter reader.old ++ letter ∷ []))) }
{
    if letter == b'N' && reader.text.is_empty() {
        reader.place = Place::Null;
        return Ok(true);
    }
    match byte_of(letter, delimiter) {
        None => Ok(false),
        Some(byte) => {
            reader.text.push(byte)?;
            reader.place = Place::Text;
            Ok(true)
        }
    }
}

/// Reads one more byte after a null field, as `read_byte` does.
fn read_behind_null(reader: &mut Reader, byte: u8, delimiter: u8) -> Result<bool, Memory>
    requires delimiter { IsDelimiter delimiter }
    requires place { reader.old.place ≡ Null }
    ensures read { IfOk result (λ taken. OnTrue taken (read_so_far delimiter reader.new ≡ read_so_far delimiter reader.old ++ byte ∷ [])) }
    ensures bad { IfOk result (λ taken. OnFalse taken (¬ BeginsLineBody delimiter (read_so_far delimiter reader.old ++ byte ∷ []))) }
{
    if byte != delimiter {
        return Ok(false);
    }
    reader.fields.push_null()?;
    reader.text.clear();
    reader.place = Place::Text;
    Ok(true)
}

/// Returns the byte that is written as a backslash and this letter. Returns None if there is none.
fn byte_of(letter: u8, delimiter: u8) -> Option<u8>
    ensures some { IfSome result (λ byte. escaped delimiter byte ≡ 92 ∷ letter ∷ []) }
    ensures none { IfNone result ((byte : ℕ) → escaped delimiter byte ≢ 92 ∷ letter ∷ []) }
{
    let byte = candidate(letter);
    match letter_of(byte, delimiter) {
        Some(its) if its == letter => Some(byte),
        _ => None,
    }
}

/// Returns the only byte that can be written as a backslash and this letter.
fn candidate(letter: u8) -> u8
    ensures { (delimiter byte : ℕ) → escaped delimiter byte ≡ 92 ∷ letter ∷ [] → byte ≡ result }
{
    match letter {
        b'b' => 8,
        b't' => 9,
        b'n' => 10,
        b'v' => 11,
        b'f' => 12,
        b'r' => 13,
        itself => itself,
    }
}

/// Returns the fields of a line that is read whole.
fn finish(mut reader: Reader, line: &[u8], delimiter: u8) -> Result<Fields, SplitFault>
    requires delimiter { IsDelimiter delimiter }
    requires whole { read_so_far delimiter reader ≡ line.now }
    ensures read { IfOk result (λ fields. IsLineBody delimiter fields line.now) }
    ensures bad { IfErr result (IsSplitFault delimiter line.now) }
{
    match reader.place {
        Place::Text => reader.fields.push_text(&reader.text)?,
        Place::Null => reader.fields.push_null()?,
        Place::Backslash => return Err(SplitFault::BadAt { at: line.len() }),
    }
    Ok(reader.fields)
}
