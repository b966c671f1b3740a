//! The fields of a line, kept in one buffer.

ghost use Rattle.std.specs.Prelude.{◌≡◌, ◌<◌, ◌==◌, [], ◌∷◌, ◌++◌, length, slice_get, option_copied, None, Some, OnOk};

use out_of_memory::Memory;
use std::alloc::Global;
use std::marker::Model;

/// Where a field's text stands in the buffer.
#[derive(Clone, Copy, Debug)]
struct Span {
    start: usize,
    end: usize,
}

/// Fields, each null or the bytes of a text, one after the other in one buffer. A contract sees their list.
#[derive(Debug, Drop)]
pub struct Fields {
    bytes: Vec<u8>,
    spans: Vec<Option<Span>>,
}

impl Model for Fields {
    ghost use Rattle.std.specs.Prelude.{All, List, Option, ℕ};
    ghost use Rattle.row_text.specs.FieldList.{fields_in, IsSpanWithin};

    ghost Value = { List (Option (List ℕ)) };

    ghost view = { λ f. fields_in f.bytes.items f.spans.items };

    ghost invariant = { λ f. All (IsSpanWithin f.bytes.items) f.spans.items };
}

impl Fields {
    /// Returns no fields. Takes no memory.
    pub(crate) fn new(alloc: Global) -> Fields
        ensures { result ≡ [] }
    {
        Fields {
            bytes: Vec::new(alloc),
            spans: Vec::new(alloc),
        }
    }

    /// Appends a null field.
    pub(crate) fn push_null(&mut self) -> Result<(), Memory>
        ensures { OnOk result (self.new ≡ self.old ++ None ∷ []) }
    {
        self.spans.push(None)?;
        Ok(())
    }

    /// Appends a field that is a text.
    pub(crate) fn push_text(&mut self, text: &[u8]) -> Result<(), Memory>
        ensures { OnOk result (self.new ≡ self.old ++ Some text.now ∷ []) }
    {
        let start = self.bytes.len();
        self.bytes.extend_from_slice(text)?;
        self.spans.push(Some(Span {
            start,
            end: self.bytes.len(),
        }))?;
        Ok(())
    }

    /// Returns the number of fields.
    pub fn len(&self) -> usize
        ensures { result ≡ length self.now }
    {
        self.spans.len()
    }

    /// Whether there is no field.
    pub fn is_empty(&self) -> bool
        ensures { result ≡ (length self.now == 0) }
    {
        self.spans.is_empty()
    }

    /// Returns the field at index `i`, from 0: the bytes of its text. Returns None exactly if the field is null.
    pub fn get(&self, i: usize) -> Option<&[u8]>
        requires { i < length self.now }
        ensures { slice_get self.now i ≡ Some (option_copied result) }
    {
        match self.spans[i] {
            None => None,
            Some(span) => Some(&self.bytes[span.start..span.end]),
        }
    }
}
