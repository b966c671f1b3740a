//! The lines of a stream, read in order up to the first fault.

ghost use Rattle.std.specs.Prelude.{◌≡◌, ◌≤◌, ◌<◌, ℕ, ◌^◌, List, [], ◌∷◌, ◌++◌, false, length, take, Contains, IfErr, IfOk, MatchOption, None, OnOk, Option, Some, slice_get};
ghost use Rattle.row_text.specs.Fields.{IsDelimiter, escaped_text};
ghost use Rattle.row_text.specs.Lines.{line_text};
ghost use Rattle.stream_apply.specs.KeyedLines.{has_key, keyed};
ghost use Rattle.stream_apply.specs.Streams.{IsFaultOf, IsFields, IsKeyFault, IsKeyedLine, IsStream, StartsNone, text_fields, wants_held};
ghost use Rattle.stream_apply.specs.declared.kind.InputKind.TheVariants.{Snapshot};

use crate::fault::ApplyFault;
use crate::key_fields::KeyFields;
use crate::key_table::KeyTable;
use crate::kind::InputKind;
use out_of_memory::Memory;
use row_text::{Fields, SplitFault, field_size, next_line, split_line};
use std::alloc::Global;

/// A line at the start of bytes, and the bytes after its line feed.
#[derive(Clone, Copy)]
struct ReadLine<'a> {
    key: &'a [u8],
    text: &'a [u8],
    rest: &'a [u8],
}

/// Reads the lines of a table's text, by their keys. Refuses the first line at fault: a `BadLine` or a `DoubleKey`.
pub fn read_table<'a>(
    alloc: Global,
    snapshot: &'a [u8],
    keys: KeyFields,
    delimiter: u8,
) -> Result<KeyTable<'a>, ApplyFault>
    requires { IsDelimiter delimiter }
    ensures read { IfOk result (IsStream keys delimiter Snapshot [] snapshot.now) }
    ensures fault { IfErr result (IsFaultOf keys delimiter Snapshot [] snapshot.now) }
{
    let none = KeyTable::new(alloc);
    read_stream(alloc, InputKind::Snapshot, &none, snapshot, keys, delimiter)
}

/// Reads the lines of a stream for a table, by their keys. Refuses the first line at fault.
pub(crate) fn read_stream<'a>(
    alloc: Global,
    kind: InputKind,
    table: &KeyTable,
    bytes: &'a [u8],
    keys: KeyFields,
    delimiter: u8,
) -> Result<KeyTable<'a>, ApplyFault>
    requires { IsDelimiter delimiter }
    ensures read { IfOk result (λ lines. IsStream keys delimiter kind table.now bytes.now lines) }
    ensures fault { IfErr result (IsFaultOf keys delimiter kind table.now bytes.now) }
{
    let mut lines = KeyTable::new(alloc);
    let mut rest = bytes;
    while !rest.is_empty() {
        let number = lines.len() as u64 + 1;
        match read_line(alloc, kind, rest, keys, delimiter)? {
            None => return Err(ApplyFault::BadLine { line: number }),
            Some(line) => {
                check_key(kind, table, &lines, line.key, number)?;
                lines.put(line.key, line.text)?;
                rest = line.rest;
            }
        }
    }
    Ok(lines)
}

/// Checks the key of a line against the lines before it and the table.
fn check_key(
    kind: InputKind,
    table: &KeyTable,
    before: &KeyTable,
    key: &[u8],
    number: u64,
) -> Result<(), ApplyFault>
    ensures free { OnOk result (has_key before.now key.now ≡ false) }
    ensures held { OnOk result (has_key table.now key.now ≡ wants_held kind) }
    ensures fault { IfErr result (IsKeyFault kind table.now before.now key.now number) }
{
    if before.has(key) {
        return Err(ApplyFault::DoubleKey { line: number });
    }
    match (kind.wants_held(), table.has(key)) {
        (true, false) => Err(ApplyFault::NoSuchKey { line: number }),
        (false, true) => Err(ApplyFault::KeyExists { line: number }),
        _ => Ok(()),
    }
}

/// Reads the line at the start of bytes; None if they start with no line of the kind.
fn read_line<'a>(
    alloc: Global,
    kind: InputKind,
    bytes: &'a [u8],
    keys: KeyFields,
    delimiter: u8,
) -> Result<Option<ReadLine<'a>>, Memory>
    requires { IsDelimiter delimiter }
    ensures { IfOk result (λ read. MatchOption read
        (StartsNone keys delimiter kind bytes.now)
        (λ line. IsKeyedLine keys delimiter kind (keyed line.key.now line.text.now) × (bytes.now ≡ line.text.now ++ 10 ∷ line.rest.now))) }
{
    let Some((text, rest)) = cut_line(bytes) else {
        return Ok(None);
    };
    match key_size(alloc, kind, text, keys, delimiter)? {
        None => Ok(None),
        Some(size) => Ok(Some(ReadLine {
            key: &text[..size],
            text,
            rest,
        })),
    }
}

/// Returns what stands before and after the first line feed; None if there is none.
fn cut_line(bytes: &[u8]) -> Option<(&[u8], &[u8])>
    ensures { MatchOption result
        (¬ Contains bytes.now 10)
        (λ parts. (bytes.now ≡ parts.0.now ++ 10 ∷ parts.1.now) × ¬ Contains parts.0.now 10) }
{
    let line = next_line(bytes, 0)?;
    Some((&bytes[..line.end], &bytes[line.end + 1..]))
}

/// Returns how many bytes of a line are its key; None if it is no line of the kind. The line comes without its line feed.
pub fn key_size(
    alloc: Global,
    kind: InputKind,
    text: &[u8],
    keys: KeyFields,
    delimiter: u8,
) -> Result<Option<usize>, Memory>
    requires { IsDelimiter delimiter }
    ensures { IfOk result (λ size. MatchOption size
        ((key : List ℕ) → ¬ IsKeyedLine keys delimiter kind (keyed key text.now))
        (λ s. (s ≤ length text.now) × IsKeyedLine keys delimiter kind (keyed (take s text.now) text.now))) }
{
    match split_line(alloc, text, delimiter) {
        Ok(fields) => Ok(front_size(kind, &fields, keys, delimiter)),
        Err(SplitFault::BadAt { .. }) => Ok(None),
        Err(SplitFault::Memory) => Err(Memory),
    }
}

/// Returns how many bytes the fields of the key take when written; None if the fields are no line of the kind.
fn front_size(kind: InputKind, fields: &Fields, keys: KeyFields, delimiter: u8) -> Option<usize>
    requires { length (line_text delimiter fields.now) < 2 ^ 63 }
    ensures { MatchOption result
        ((front : List (List ℕ)) (others : List (Option (List ℕ))) → ¬ IsFields keys kind fields.now front others)
        (λ size. (front : List (List ℕ)) × (others : List (Option (List ℕ))) × IsFields keys kind fields.now front others
        × (size ≡ length (line_text delimiter (text_fields front)))) }
{
    let count = keys.count();
    if fields.len() < count {
        return None;
    }
    if kind.holds_keys_alone() && fields.len() > count {
        return None;
    }
    let first = text_size(fields, 0, delimiter)?;
    match keys {
        KeyFields::One => Some(first),
        KeyFields::Two => Some(first + 1 + text_size(fields, 1, delimiter)?),
    }
}

/// Returns how many bytes the field at a place, from 0, takes when written; None if it is null.
fn text_size(fields: &Fields, place: usize, delimiter: u8) -> Option<usize>
    requires { place < length fields.now }
    ensures { MatchOption result
        (slice_get fields.now place ≡ Some None)
        (λ size. (text : List ℕ) × (slice_get fields.now place ≡ Some (Some text)) × (size ≡ length (escaped_text delimiter text))) }
{
    let text = fields.get(place)?;
    Some(field_size(Some(text), delimiter))
}
