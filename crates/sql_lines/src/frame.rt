//! What the statements of a table's rows have in common, made once for all rows.

ghost use Rattle.std.specs.Prelude.{◌≡◌, ◌<◌, ◌≤◌, ◌+◌, ◌++◌, IfOk, OnOk, codes, decimal, drop, length, true};
ghost use Rattle.sql_lines.specs.Frames.{behind_framed, deletion_frame, end_with, field_framed, framed, insertion_frame, insertion_from, insertion_lead, key_lead, set_lead, update_frame, update_from, update_lead};
ghost use Rattle.sql_lines.specs.Reading.{IsPlain, field_behind};
ghost use Rattle.sql_lines.specs.Statements.{column_count, column_name, table_name};
ghost use Rattle.sql_lines.specs.Verbs.{rest_from, statement_from};

use crate::bare::is_bare_at;
use crate::written::{end_of, put_written};
use line_pages::{PageBuf, Piece};
use out_of_memory::Memory;
use schema_plan::Plan;
use std::alloc::Global;
use std::marker::Model;

/// What statements made from lines do.
#[derive(Clone, Copy, Debug, PartialEq, Eq)]
pub(crate) enum Verb {
    /// They insert the rows of the lines.
    Insert,
    /// They update the rows of the lines.
    Update,
}

/// What stands before the literal of a column, and whether the literal is bare.
pub(crate) struct FrameColumn {
    before: Vec<u8>,
    bare: bool,
}

impl Drop for FrameColumn {
    fn drop(self) {
        let FrameColumn { before, bare: _ } = self;
        drop(before);
    }
}

impl Model for FrameColumn {
    ghost use Rattle.sql_lines.specs.Frames.{FramedColumn};

    ghost Value = { FramedColumn };

    ghost view = { λ c. record { before = c.before.items; bare = c.bare } };
}

impl FrameColumn {
    /// Appends the literal of the field that begins at index `at` of some lines, after what stands before it. Returns the index after the byte
    /// `stop` that ends the field.
    #[inline(always)]
    fn put_field(&self, lines: &[u8], at: usize, stop: u8, plain: bool, page: &mut PageBuf) -> usize
        requires at { at ≤ length lines.now }
        requires plain { plain ≡ true → IsPlain lines.now }
        requires room { length page.old.text + length (field_framed self.now stop (drop at lines.now)) ≤ page.old.room }
        ensures text { page.new ≡ record page.old { text = page.old.text ++ field_framed self.now stop (drop at lines.now) } }
        ensures within { result ≤ length lines.now }
        ensures rest { drop result lines.now ≡ field_behind stop (drop at lines.now) }
        ensures order { at ≤ result }
        ensures further { at < length lines.now → at < result }
    {
        let end = end_of(lines, at, stop);
        page.put(self.before.as_slice());
        put_written(page, &lines[at..end], self.bare, plain);
        lines.len().min(end + 1)
    }
}

/// What the statements of a table's rows have in common: what stands before the literal of each column, and what stands after the last. A
/// deletion has only the latter.
pub(crate) struct Frame {
    columns: Vec<FrameColumn>,
    end: Vec<u8>,
}

impl Drop for Frame {
    fn drop(self) {
        let Frame { columns, end } = self;
        drop(columns);
        drop(end);
    }
}

impl Model for Frame {
    ghost use Rattle.sql_lines.specs.Frames.{FrameOf};

    ghost Value = { FrameOf };

    ghost view = { λ f. record { columns = f.columns.items; end = f.end.items } };
}

/// Appends a name between double quotes to a text.
fn push_name(text: &mut Vec<u8>, name: &str) -> Result<(), Memory>
    ensures { OnOk result (text.new.items ≡ text.old.items ++ (codes "\"" ++ name.now ++ codes "\"")) }
{
    text.push(b'"')?;
    text.extend_from_slice(name.as_bytes())?;
    text.push(b'"')?;
    Ok(())
}

/// Appends the name of a table to a text.
fn push_table(text: &mut Vec<u8>, plan: &Plan, table: u32) -> Result<(), Memory>
    requires { table < length plan.now.schema.tables }
    ensures { OnOk result (text.new.items ≡ text.old.items ++ table_name plan.now table) }
{
    push_name(text, plan.table(table).name.as_str())
}

/// Appends the name of a table's column to a text.
fn push_column(text: &mut Vec<u8>, plan: &Plan, table: u32, column: usize) -> Result<(), Memory>
    requires table { table < length plan.now.schema.tables }
    requires column { column < column_count plan.now table }
    ensures { OnOk result (text.new.items ≡ text.old.items ++ column_name plan.now table column) }
{
    let columns = plan.table(table).columns.as_slice();
    push_name(text, columns[column].name.as_str())
}

/// Appends to a text what stands before the key by which a statement names a row.
fn push_key_lead(text: &mut Vec<u8>, plan: &Plan, table: u32) -> Result<(), Memory>
    requires { table < length plan.now.schema.tables }
    ensures { OnOk result (text.new.items ≡ text.old.items ++ key_lead plan.now table) }
{
    let _limits = plan.table(table); // it has a column
    text.extend_from_slice(b" WHERE ")?;
    push_column(text, plan, table, 0)?;
    text.extend_from_slice(b" = ")?;
    Ok(())
}

/// Returns what stands before a column's literal in an insertion.
fn insertion_lead(alloc: Global, plan: &Plan, table: u32, column: usize) -> Result<Vec<u8>, Memory>
    requires { table < length plan.now.schema.tables }
    ensures { IfOk result (λ text. text.items ≡ insertion_lead plan.now table column) }
{
    let mut text = Vec::new(alloc);
    if column == 0 {
        text.extend_from_slice(b"INSERT INTO ")?;
        push_table(&mut text, plan, table)?;
        text.extend_from_slice(b" VALUES (")?;
    } else {
        text.extend_from_slice(b", ")?;
    }
    Ok(text)
}

/// Returns what stands before a column's literal in an update.
fn update_lead(alloc: Global, plan: &Plan, table: u32, column: usize) -> Result<Vec<u8>, Memory>
    requires table { table < length plan.now.schema.tables }
    requires column { column < column_count plan.now table }
    ensures { IfOk result (λ text. text.items ≡ update_lead plan.now table column) }
{
    let mut text = Vec::new(alloc);
    push_set(&mut text, plan, table, column)?;
    push_column(&mut text, plan, table, column)?;
    text.extend_from_slice(b" = ")?;
    Ok(text)
}

/// Appends to a text what stands before a column's name in an update.
fn push_set(text: &mut Vec<u8>, plan: &Plan, table: u32, column: usize) -> Result<(), Memory>
    requires { table < length plan.now.schema.tables }
    ensures { OnOk result (text.new.items ≡ text.old.items ++ set_lead plan.now table column) }
{
    if column == 1 {
        text.extend_from_slice(b"UPDATE ")?;
        push_table(text, plan, table)?;
        text.extend_from_slice(b" SET ")?;
    } else {
        text.extend_from_slice(b", ")?;
    }
    Ok(())
}

impl Frame {
    /// Returns what the insertions of a table's rows have in common. Returns `Memory` if memory runs out.
    pub(crate) fn of_insertions(alloc: Global, plan: &Plan, table: u32) -> Result<Frame, Memory>
        requires { table < length plan.now.schema.tables }
        ensures { IfOk result (λ frame. frame ≡ insertion_frame plan.now table) }
    {
        let mut columns = Vec::new(alloc);
        for column in 0..plan.columns(table).len() {
            let before = insertion_lead(alloc, plan, table, column)?;
            let bare = is_bare_at(plan, table, column);
            columns.push(FrameColumn { before, bare })?;
        }
        let mut end = Vec::new(alloc);
        end.extend_from_slice(b");\n")?;
        Ok(Frame { columns, end })
    }

    /// Returns what the updates of a table's rows have in common. Returns `Memory` if memory runs out.
    pub(crate) fn of_updates(alloc: Global, plan: &Plan, table: u32) -> Result<Frame, Memory>
        requires { table < length plan.now.schema.tables }
        ensures { IfOk result (λ frame. frame ≡ update_frame plan.now table) }
    {
        let mut columns = Vec::new(alloc);
        for column in 1..plan.columns(table).len() {
            let before = update_lead(alloc, plan, table, column)?;
            let bare = is_bare_at(plan, table, column);
            columns.push(FrameColumn { before, bare })?;
        }
        let mut end = Vec::new(alloc);
        push_key_lead(&mut end, plan, table)?;
        Ok(Frame { columns, end })
    }

    /// Returns what the deletions of a table's rows have in common. Returns `Memory` if memory runs out.
    pub(crate) fn of_deletions(alloc: Global, plan: &Plan, table: u32) -> Result<Frame, Memory>
        requires { table < length plan.now.schema.tables }
        ensures { IfOk result (λ frame. frame ≡ deletion_frame plan.now table) }
    {
        let columns = Vec::new(alloc);
        let mut end = Vec::new(alloc);
        end.extend_from_slice(b"DELETE FROM ")?;
        push_table(&mut end, plan, table)?;
        push_key_lead(&mut end, plan, table)?;
        Ok(Frame { columns, end })
    }

    /// Appends the literals of the fields that begin at index `at` of some lines, each after what stands before it. Returns the index after these
    /// fields.
    #[inline(always)]
    fn put_fields(
        &self,
        lines: &[u8],
        at: usize,
        delimiter: u8,
        plain: bool,
        page: &mut PageBuf,
    ) -> usize
        requires at { at ≤ length lines.now }
        requires plain { plain ≡ true → IsPlain lines.now }
        requires room { length page.old.text + length (framed delimiter self.now.columns (drop at lines.now)) ≤ page.old.room }
        ensures text { page.new ≡ record page.old { text = page.old.text ++ framed delimiter self.now.columns (drop at lines.now) } }
        ensures within { result ≤ length lines.now }
        ensures rest { drop result lines.now ≡ behind_framed delimiter self.now.columns (drop at lines.now) }
        ensures order { at ≤ result }
        ensures further { 0 < length self.now.columns → at < length lines.now → at < result }
    {
        let mut at = at;
        for (number, column) in self.columns.iter().enumerate() {
            let stop = if number + 1 == self.columns.len() {
                b'\n'
            } else {
                delimiter
            };
            at = column.put_field(lines, at, stop, plain, page);
        }
        at
    }

    /// Appends the insertion of the row whose line begins at index `at` of some lines, by the frame of insertions. Returns the index after the
    /// line. `plain` tells that there is neither a backslash nor a quote in the lines.
    #[inline(always)]
    fn put_insertion(
        &self,
        lines: &[u8],
        at: usize,
        delimiter: u8,
        plain: bool,
        page: &mut PageBuf,
    ) -> usize
        requires at { at ≤ length lines.now }
        requires plain { plain ≡ true → IsPlain lines.now }
        requires room { length page.old.text + length (insertion_from delimiter self.now (drop at lines.now)) ≤ page.old.room }
        ensures text { page.new ≡ record page.old { text = page.old.text ++ insertion_from delimiter self.now (drop at lines.now) } }
        ensures within { result ≤ length lines.now }
        ensures rest { drop result lines.now ≡ behind_framed delimiter self.now.columns (drop at lines.now) }
        ensures further { 0 < length self.now.columns → at < length lines.now → at < result }
    {
        let next = self.put_fields(lines, at, delimiter, plain, page);
        page.put(self.end.as_slice());
        next
    }

    /// Appends the update of the row whose line begins at index `at` of some lines, by the frame of updates. Returns the index after the line.
    /// `plain` tells that there is neither a backslash nor a quote in the lines.
    #[inline(always)]
    fn put_update(
        &self,
        lines: &[u8],
        at: usize,
        delimiter: u8,
        plain: bool,
        page: &mut PageBuf,
    ) -> usize
        requires at { at ≤ length lines.now }
        requires plain { plain ≡ true → IsPlain lines.now }
        requires room { length page.old.text + length (update_from delimiter self.now (drop at lines.now)) ≤ page.old.room }
        ensures text { page.new ≡ record page.old { text = page.old.text ++ update_from delimiter self.now (drop at lines.now) } }
        ensures within { result ≤ length lines.now }
        ensures rest { drop result lines.now ≡ behind_framed delimiter self.now.columns (field_behind delimiter (drop at lines.now)) }
        ensures further { at < length lines.now → at < result }
    {
        let end = end_of(lines, at, delimiter);
        let key = &lines[at..end];
        let next = lines.len().min(end + 1);
        let next = self.put_fields(lines, next, delimiter, plain, page);
        self.put_end(key, page);
        next
    }

    /// Appends what stands after the last literal, with the key by which a statement names a row.
    #[inline(always)]
    fn put_end(&self, key: &[u8], page: &mut PageBuf)
        requires { length page.old.text + length (end_with self.now key.now) ≤ page.old.room }
        ensures { page.new ≡ record page.old { text = page.old.text ++ end_with self.now key.now } }
    {
        page.put(self.end.as_slice());
        page.put(key);
        page.put(b";\n");
    }

    /// Appends a statement of the row whose line begins at index `at` of some lines, as `put_insertion` and `put_update` do.
    #[inline(always)]
    pub(crate) fn put_statement(
        &self,
        verb: Verb,
        lines: &[u8],
        at: usize,
        delimiter: u8,
        plain: bool,
        page: &mut PageBuf,
    ) -> usize
        requires columns { 0 < length self.now.columns }
        requires at { at < length lines.now }
        requires plain { plain ≡ true → IsPlain lines.now }
        requires room { length page.old.text + length (statement_from verb delimiter self.now (drop at lines.now)) ≤ page.old.room }
        ensures text { page.new ≡ record page.old { text = page.old.text ++ statement_from verb delimiter self.now (drop at lines.now) } }
        ensures within { result ≤ length lines.now }
        ensures rest { drop result lines.now ≡ rest_from verb delimiter self.now (drop at lines.now) }
        ensures further { at < result }
    {
        match verb {
            Verb::Insert => self.put_insertion(lines, at, delimiter, plain, page),
            Verb::Update => self.put_update(lines, at, delimiter, plain, page),
        }
    }

    /// Appends the deletion of the row with a key, by the frame of deletions.
    pub(crate) fn put_deletion(&self, key: u64, page: &mut PageBuf)
        requires { length page.old.text + length (end_with self.now (decimal key)) ≤ page.old.room }
        ensures { page.new ≡ record page.old { text = page.old.text ++ end_with self.now (decimal key) } }
    {
        page.put(self.end.as_slice());
        page.put_number(key);
        page.put(b";\n");
    }
}
