//! Lines in order, each found by its key.

ghost use Rattle.std.specs.Prelude.{◌≡◌, ◌<◌, ◌^◌, [], ◌∷◌, ◌++◌, filter, length, not, slice_get, IfOk, IfSome, OnOk};
ghost use Rattle.std.specs.List.{IsDistinct};
ghost use Rattle.std.specs.Prelude.{map};
ghost use Rattle.std.specs.Str.{bytes_eq};
ghost use Rattle.stream_apply.specs.KeyedLines.{has_key, keyed, lines_text, put};

use indexmap::IndexMap;
use out_of_memory::Memory;
use std::alloc::{AllocError, Global};
use std::marker::Model;

/// Lines in order, each found by its key. A contract sees their list.
pub struct KeyTable<'a> {
    lines: IndexMap<&'a [u8], &'a [u8]>,
}

impl Drop for KeyTable<'_> {
    fn drop(self) {
        let KeyTable { lines } = self;
        drop(lines);
    }
}

impl<'a> Model for KeyTable<'a> {
    ghost use Rattle.std.specs.Prelude.{List};
    ghost use Rattle.stream_apply.specs.KeyedLines.{KeyedLine, lines_of};

    ghost Value = { List KeyedLine };

    ghost view = { λ t. lines_of t.lines.entries };
}

impl<'a> KeyTable<'a> {
    /// Returns a table without lines.
    pub fn new(alloc: Global) -> KeyTable<'a>
        ensures { result ≡ [] }
    {
        KeyTable {
            lines: IndexMap::new(alloc),
        }
    }

    /// Returns the number of lines. No two lines have the same key.
    pub fn len(&self) -> usize
        ensures number { result ≡ length self.now }
        ensures small { result < 2 ^ 63 }
        ensures apart { IsDistinct bytes_eq (map (λ line. line.key) self.now) }
    {
        self.lines.len()
    }

    /// Tells whether a line has the key.
    pub fn has(&self, key: &[u8]) -> bool
        ensures { result ≡ has_key self.now key.now }
    {
        self.lines.contains_key(key)
    }

    /// Puts a line in the place of the one with its key, or after the others if no line has the key.
    pub fn put(&mut self, key: &'a [u8], text: &'a [u8]) -> Result<(), Memory>
        ensures { OnOk result (self.new ≡ put self.old (keyed key.now text.now)) }
    {
        self.lines.insert(key, text)?;
        Ok(())
    }

    /// Drops the lines whose keys `others` holds.
    pub fn drop_all(&mut self, others: &KeyTable)
        ensures { self.new ≡ filter (λ line. not (has_key others.now line.key)) self.old }
    {
        if others.len() == 0 {
            return;
        }
        self.lines.retain(
            |key: &&[u8], text: &mut &[u8]| -> bool
                ensures { (result ≡ not (has_key others.entry.now key.now.now)) × (text.new ≡ text.old) }
            { !others.has(*key) },
        );
    }

    /// Returns the key of the line at an index, from 0.
    pub fn key_at(&self, index: usize) -> &'a [u8]
        requires { index < length self.now }
        ensures { IfSome (slice_get self.now index) (λ line. line.key ≡ result.now) }
    {
        match self.lines.get_index(index) {
            Some((key, _)) => *key,
            None => &[],
        }
    }

    /// Returns the text of the line at an index, from 0.
    pub fn text_at(&self, index: usize) -> &'a [u8]
        requires { index < length self.now }
        ensures { IfSome (slice_get self.now index) (λ line. line.text ≡ result.now) }
    {
        self.lines[index]
    }

    /// Returns the text of all lines in order, each with its line feed.
    pub fn text(&self, alloc: Global) -> Result<Vec<u8>, AllocError>
        ensures { IfOk result (λ text. text.items ≡ lines_text self.now) }
    {
        let mut text = Vec::new(alloc);
        for index in 0..self.len() {
            put_line(&mut text, self.text_at(index))?;
        }
        Ok(text)
    }
}

/// Appends a line with its line feed.
fn put_line(text: &mut Vec<u8>, line: &[u8]) -> Result<(), AllocError>
    ensures { OnOk result (text.new.items ≡ text.old.items ++ (line.now ++ 10 ∷ [])) }
{
    text.extend_from_slice(line)?;
    text.push(b'\n')?;
    Ok(())
}
