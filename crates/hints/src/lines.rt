//! The lines of a TOML text at which tables, columns and keys stand.
//!
//! The text isn't parsed here. A line is told only if the text has exactly the tables and columns that its document has, each of them
//! on a line of its own.

use schema_read::Place;
use std::alloc::AllocError;

/// A place in a document, with the numbers of tables and columns that the document has.
#[derive(Clone, Copy)]
pub(crate) struct Spot {
    /// The place.
    pub(crate) place: Place,
    /// How many tables the document has.
    pub(crate) tables: u64,
    /// How many columns the place's table has.
    pub(crate) columns: u64,
}

/// Where a walk through the lines of a text has come.
#[derive(Clone, Copy)]
struct Walk {
    /// The tables begun so far.
    table: u64,
    /// The columns begun so far in the table.
    column: u64,
    /// Whether the line lies in a list of columns in braces.
    is_in_list: bool,
    /// Whether the lines belong to a header that is neither of a table nor of a column.
    is_below: bool,
    /// Whether a table or a column begins at the line.
    is_new: bool,
}

impl Walk {
    /// Goes on to the next line.
    fn step(&mut self, line: &str) {
        self.is_new = true;
        match header_of(line) {
            Some("table") => {
                self.table = self.table.saturating_add(1);
                self.column = 0;
                self.is_below = false;
            }
            Some("table.column" | "column") => {
                self.column = self.column.saturating_add(1);
                self.is_below = false;
            }
            Some(_) => {
                self.is_new = false;
                self.is_below = true;
            }
            None => self.step_in_list(line),
        }
    }

    /// Goes on to the next line, which is no header.
    fn step_in_list(&mut self, line: &str) {
        self.is_new = self.is_in_list && line.starts_with("{");
        if self.is_new {
            self.column = self.column.saturating_add(1);
        } else if self.is_in_list {
            self.is_in_list = !line.starts_with("]");
        } else {
            self.is_in_list = value_of(line, "column") == Some("[");
        }
    }

    /// Whether the walk is at the table and the column of a place.
    fn is_at(&self, place: Place) -> bool {
        self.table == place.table && self.column == place.column
    }

    /// Whether the line is the one that is looked for: with this key, or the place's first one.
    fn is_wanted(&self, line: &str, key: Option<&str>) -> bool {
        match key {
            Some(key) => !self.is_below && !self.is_in_list && value_of(line, key).is_some(),
            None => self.is_new,
        }
    }
}

/// Returns the name between the double brackets of a header.
fn header_of(line: &str) -> Option<&str> {
    let (name, _) = line.strip_prefix("[[")?.split_once("]]")?;
    Some(name.trim())
}

/// Returns what stands after a key and its `=`, if the line begins with them.
fn value_of<'a>(line: &'a str, key: &str) -> Option<&'a str> {
    let behind = line.strip_prefix(key)?.trim_start();
    Some(behind.strip_prefix("=")?.trim())
}

/// Returns the line at which a key of a place stands, or at which the place begins if no key is given. Returns None if the line isn't
/// sure, as where a key stands twice.
pub(crate) fn line_of(text: &str, spot: Spot, key: Option<&str>) -> Option<u64> {
    if text.contains("\"\"\"") || text.contains("'''") {
        return None;
    }
    let mut walk = Walk {
        table: 0,
        column: 0,
        is_in_list: false,
        is_below: false,
        is_new: false,
    };
    let mut number: u64 = 0;
    let mut columns: u64 = 0;
    let mut found = None;
    let mut is_double = false;
    for line in text.lines() {
        let line = line.trim();
        number = number.saturating_add(1);
        walk.step(line);
        if walk.table == spot.place.table {
            columns = columns.max(walk.column);
        }
        if walk.is_at(spot.place) && walk.is_wanted(line, key) {
            is_double = found.is_some();
            found = Some(number);
        }
    }
    let is_sure = walk.table == spot.tables && columns == spot.columns && !is_double;
    if is_sure { found } else { None }
}

/// Appends the number of a line in brackets, if there is one.
pub(crate) fn put_line(line: Option<u64>, hints: &mut String) -> Result<(), AllocError> {
    match line {
        Some(number) => write!(hints, " (line {number})"),
        None => Ok(()),
    }
}
