//! Lines of an undo text, read at the start of bytes.

ghost use Rattle.std.specs.Prelude.{◌≡◌, ◌≢◌, ◌≤◌, ◌<◌, ◌^◌, ℕ, List, [], ◌∷◌, ◌++◌, true, decimal, length, Contains, IfOk, MatchOption};
ghost use Rattle.std.specs.Char.{is_ascii_digit};
ghost use Rattle.std.specs.List.{list_all};
ghost use Rattle.std.specs.Str.Parse.{digits_value};
ghost use Rattle.row_text.specs.Fields.{IsDelimiter};
ghost use Rattle.undo_streams.specs.ReadLines.{IsLead, LeadsNone, undo_of};
ghost use Rattle.undo_streams.specs.Reverting.{IsUndoLine, StartsNone, rank_of, undo_line_text};
ghost use Rattle.undo_streams.specs.declared.part.Part.TheVariants.{Adds};

use crate::part::Part;
use out_of_memory::Memory;
use std::alloc::Global;
use stream_apply::{KeyFields, key_size};

/// The most digits of a place.
const PLACE_DIGITS: usize = 13;

/// A line of an undo text, and the bytes after its line feed. `key` and `text` are those of the line that it drops, sets or adds.
#[derive(Clone, Copy)]
pub(crate) struct ReadUndo<'a> {
    pub(crate) part: Part,
    /// The place, from 0, at which it adds a line. It is 0 if it adds none.
    pub(crate) place: u64,
    pub(crate) key: &'a [u8],
    pub(crate) text: &'a [u8],
    /// The bytes after the line feed.
    pub(crate) rest: &'a [u8],
}

/// The beginning of a line, and the rest of it.
#[derive(Clone, Copy)]
struct Lead<'a> {
    part: Part,
    place: u64,
    body: &'a [u8],
}

/// Reads the line at the start of bytes. None if they start with no undo line of `part` or of a later part.
pub(crate) fn read_undo<'a>(
    alloc: Global,
    part: Part,
    bytes: &'a [u8],
    delimiter: u8,
) -> Result<Option<ReadUndo<'a>>, Memory>
    requires { IsDelimiter delimiter }
    ensures { IfOk result (λ read. MatchOption read
        (StartsNone delimiter part bytes.now)
        (λ line. IsUndoLine delimiter (undo_of line) × (rank_of part ≤ rank_of line.part) × (bytes.now ≡ undo_line_text delimiter (undo_of line) ++ 10 ∷ line.rest.now))) }
{
    let Some((text, rest)) = cut(bytes, b'\n') else {
        return Ok(None);
    };
    let Some(lead) = read_lead(text, delimiter) else {
        return Ok(None);
    };
    if lead.part.rank() < part.rank() {
        return Ok(None);
    }
    match key_size(
        alloc,
        lead.part.kind(),
        lead.body,
        KeyFields::One,
        delimiter,
    )? {
        None => Ok(None),
        Some(size) => Ok(Some(ReadUndo {
            part: lead.part,
            place: lead.place,
            key: &lead.body[..size],
            text: lead.body,
            rest,
        })),
    }
}

/// Returns what stands before and after the first byte of a value; None if there is no such byte.
fn cut(bytes: &[u8], byte: u8) -> Option<(&[u8], &[u8])>
    ensures { MatchOption result
        (¬ Contains bytes.now byte)
        (λ parts. (bytes.now ≡ parts.0.now ++ byte ∷ parts.1.now) × ¬ Contains parts.0.now byte) }
{
    for end in 0..bytes.len() {
        if bytes[end] == byte {
            return Some((&bytes[..end], &bytes[end + 1..]));
        }
    }
    None
}

/// Reads the beginning of a line; None if it begins no undo line.
fn read_lead(text: &[u8], delimiter: u8) -> Option<Lead<'_>>
    requires { IsDelimiter delimiter }
    ensures { MatchOption result (LeadsNone delimiter text.now) (IsLead delimiter text.now) }
{
    let (word, behind) = cut(text, delimiter)?;
    let part = Part::of_word(word)?;
    match part {
        Part::Drops | Part::Sets => Some(Lead {
            part,
            place: 0,
            body: behind,
        }),
        Part::Adds => read_placed(behind, delimiter),
    }
}

/// Reads the place and the line body after the word of a line that is added; None if no place and delimiter stand there.
fn read_placed(behind: &[u8], delimiter: u8) -> Option<Lead<'_>>
    requires { IsDelimiter delimiter }
    ensures { MatchOption result
        ((place : ℕ) (body : List ℕ) → place < 10 ^ 13 → ¬ (behind.now ≡ (decimal place ++ delimiter ∷ []) ++ body))
        (λ lead. (lead.part ≡ Adds) × (lead.place < 10 ^ 13) × (behind.now ≡ (decimal lead.place ++ delimiter ∷ []) ++ lead.body.now)) }
{
    let (digits, body) = cut(behind, delimiter)?;
    let place = read_place(digits)?;
    Some(Lead {
        part: Part::Adds,
        place,
        body,
    })
}

/// Reads a place of one to thirteen digits, of which the first is 0 only in the number 0; None if the bytes are no such digits.
fn read_place(digits: &[u8]) -> Option<u64>
    ensures { MatchOption result
        ((place : ℕ) → place < 10 ^ 13 → digits.now ≢ decimal place)
        (λ place. (place < 10 ^ 13) × (digits.now ≡ decimal place)) }
{
    if digits.is_empty() || digits.len() > PLACE_DIGITS || !are_digits(digits) {
        return None;
    }
    if digits[0] == b'0' && digits.len() > 1 {
        return None;
    }
    Some(value_of(digits))
}

/// Tells whether all bytes are digits.
fn are_digits(bytes: &[u8]) -> bool
    ensures { result ≡ list_all is_ascii_digit bytes.now }
{
    bytes.iter().all(|byte| byte.is_ascii_digit())
}

/// Returns the number that digits stand for.
fn value_of(digits: &[u8]) -> u64
    requires digits { list_all is_ascii_digit digits.now ≡ true }
    requires few { length digits.now ≤ 13 }
    ensures { result ≡ digits_value 10 digits.now }
{
    let mut value = 0;
    for digit in digits {
        value = value * 10 + u64::from(*digit - b'0');
    }
    value
}
