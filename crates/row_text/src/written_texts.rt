//! Texts as they are written, kept in one buffer with the places of their ends. So a text needs no allocation of its own.

ghost use Rattle.std.specs.Prelude.{◌≡◌, ◌<◌, ◌==◌, [], ◌∷◌, ◌++◌, length, slice_get, take, vec_len, Some, OnOk, OnErr};
ghost use Rattle.row_text.specs.Fields.{escaped_text};
ghost use Rattle.row_text.specs.WrittenTexts.{AreEnds, start_of, written_text_at};

use crate::escapes::{has_escape, letter_of};
use out_of_memory::Memory;
use std::alloc::{AllocError, Global};
use std::marker::Model;

/// Texts as they are written, one after the other in one buffer. A contract sees the list of what is written.
#[derive(Debug, Drop)]
pub struct WrittenTexts {
    bytes: Vec<u8>,
    ends: Vec<usize>,
}

impl Model for WrittenTexts {
    ghost use Rattle.std.specs.Prelude.{List, ℕ};
    ghost use Rattle.row_text.specs.WrittenTexts.{texts_in, AreEnds};

    ghost Value = { List (List ℕ) };

    ghost view = { λ t. texts_in t.bytes.items t.ends.items };

    ghost invariant = { λ t. AreEnds t.bytes.items t.ends.items };
}

impl WrittenTexts {
    /// Returns no texts. Takes no memory.
    pub fn new(alloc: Global) -> WrittenTexts
        ensures { result ≡ [] }
    {
        WrittenTexts {
            bytes: Vec::new(alloc),
            ends: Vec::new(alloc),
        }
    }

    /// Appends a text as it is written between fields with this delimiter. At `Memory` the texts stay as they were.
    pub fn push(&mut self, text: &[u8], delimiter: u8) -> Result<(), Memory>
        ensures appended { OnOk result (self.new ≡ self.old ++ escaped_text delimiter text.now ∷ []) }
        ensures unchanged { OnErr result (self.new ≡ self.old) }
    {
        let start = self.bytes.len();
        if let Ok(()) = put_written(&mut self.bytes, text, delimiter)
            && let Ok(()) = self.ends.push(self.bytes.len())
        {
            return Ok(());
        }
        self.bytes.truncate(start);
        Err(Memory)
    }

    /// Returns the number of texts.
    pub fn len(&self) -> usize
        ensures { result ≡ length self.now }
    {
        self.ends.len()
    }

    /// Whether there is no text.
    pub fn is_empty(&self) -> bool
        ensures { result ≡ (length self.now == 0) }
    {
        self.ends.is_empty()
    }

    /// Returns the text at index `i`, from 0, as it is written.
    #[inline]
    pub fn get(&self, i: usize) -> &[u8]
        requires { i < length self.now }
        ensures { slice_get self.now i ≡ Some result.now }
    {
        text_at(&self.bytes, &self.ends, i)
    }
}

/// Returns the text at a place.
#[inline]
fn text_at<'a>(bytes: &'a [u8], ends: &[usize], i: usize) -> &'a [u8]
    requires ends { AreEnds bytes.now ends.now }
    requires place { i < length ends.now }
    ensures { result.now ≡ written_text_at bytes.now ends.now i }
{
    &bytes[start_of(ends, i)..ends[i]]
}

/// Returns where the text at a place begins.
#[inline]
fn start_of(ends: &[usize], i: usize) -> usize
    requires { i < length ends.now }
    ensures { result ≡ start_of ends.now i }
{
    if i == 0 { 0 } else { ends[i - 1] }
}

/// Appends a text as it is written. If memory runs out, the buffer still begins with the bytes that it held.
fn put_written(bytes: &mut Vec<u8>, text: &[u8], delimiter: u8) -> Result<(), AllocError>
    ensures appended { OnOk result (bytes.new.items ≡ bytes.old.items ++ escaped_text delimiter text.now) }
    ensures kept { OnErr result (take (vec_len bytes.old) bytes.new.items ≡ bytes.old.items) }
{
    if has_escape(text, delimiter) {
        put_escaped(bytes, text, delimiter)
    } else {
        bytes.extend_from_slice(text)
    }
}

/// Appends a text byte by byte, as `put_written` does.
fn put_escaped(bytes: &mut Vec<u8>, text: &[u8], delimiter: u8) -> Result<(), AllocError>
    ensures appended { OnOk result (bytes.new.items ≡ bytes.old.items ++ escaped_text delimiter text.now) }
    ensures kept { OnErr result (take (vec_len bytes.old) bytes.new.items ≡ bytes.old.items) }
{
    for byte in text {
        match letter_of(*byte, delimiter) {
            Some(letter) => bytes.extend_from_slice(&[b'\\', letter])?,
            None => bytes.push(*byte)?,
        }
    }
    Ok(())
}
