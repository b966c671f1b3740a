//! The lines of a run's rows, put together from pieces and from fields that give none.

ghost use Rattle.std.specs.Prelude.{◌≡◌, ◌<◌, ◌≤◌, ℕ, ◌+◌, ◌*◌, ◌++◌, All, false, get_or, length, sum_by, true};
ghost use Rattle.std.specs.List.{range_with_len};
ghost use Rattle.line_pages.specs.Pieces.{piece_text};
ghost use Rattle.schema_facts.specs.Layout.{layout_of};
ghost use Rattle.draw_values.specs.Items.{itemized_field};
ghost use Rattle.draw_values.specs.Runs.{run_row};
ghost use Rattle.schema_facts.specs.TableFacts.{max_line};
ghost use Rattle.row_lines.specs.Runs.{AreKeys, layout_for, line_for, listed_text, text_at, text_behind};
ghost use Rattle.life_intervals.specs.Generator.{generator_of, last_unit};
ghost use Rattle.life_intervals.specs.Keys.{key_of};
ghost use Rattle.row_lines.specs.RunFields.{AreItemized, AreMade, AreRowsOf, HasSizes, asked_for, asked_long, size_for};
ghost use Rattle.row_lines.specs.TableLines.{column_of, is_short_at};

use crate::cohort_lines::CohortLines;
use crate::runs::RunLines;
use draw_values::{CohortValues, ItemizedField, RunRows};
use life_intervals::cohort;
use line_pages::{PageBuf, Piece};
use std::sync::ledger::Ledger;
use step_count::Steps;

impl<'a> RunLines<'a> {
    /// Appends the lines of a run's rows. The short fields must be made, and what fields of several items need must be drawn.
    pub(crate) fn put_lines<L: Ledger>(
        &self,
        rows: RunRows<'_>,
        keys: &[u64],
        pieces: &[Piece],
        items: &[ItemizedField],
        page: &mut PageBuf,
        steps: &mut Steps<L>,
    )
        requires rows { AreRowsOf self.now rows }
        requires keys { AreKeys self.now rows.ordinals.now keys.now }
        requires pieces { length rows.ordinals.now * length (layout_for self.now).columns ≤ length pieces.now }
        requires items { length items.now ≡ length pieces.now }
        requires made { (column : ℕ) → column < length (layout_for self.now).columns → is_short_at self.now.plan self.now.table column ≡ true → AreMade self.now rows.ordinals.now pieces.now (column * length rows.ordinals.now) column }
        requires itemized { (column : ℕ) → column < length (layout_for self.now).columns → (column_of self.now.plan self.now.table column).itemized ≡ true → AreItemized self.now rows items.now (column * length rows.ordinals.now) column }
        requires room { length page.old.text + length rows.ordinals.now * max_line (layout_of self.now.plan) self.now.table ≤ page.old.room }
        ensures text { page.new ≡ record page.old { text = page.old.text ++ listed_text self.now rows.entry.ordinals.now } }
        ensures size { length (listed_text self.now rows.entry.ordinals.now) ≤ length rows.entry.ordinals.now * max_line (layout_of self.now.plan) self.now.table }
        ensures fields { All (HasSizes self.now) rows.entry.ordinals.now }
        ensures steps { steps.new ≤ steps.old + length rows.entry.ordinals.now * sum_by (asked_long self.now) (range_with_len 0 (length (layout_for self.now).columns)) }
    {
        let count = rows.ordinals.len();
        let short = self.lines.short();
        if are_all(short) {
            page.put_rows(pieces, self.column_count(), count, count);
            return;
        }
        let mut lines = CohortLines::new(self.rows, self.table, 0, self.unit);
        for row in 0..count {
            self.turn_to(rows.births[row], &mut lines);
            self.put_mixed_line(row, rows, keys[row], &lines, pieces, items, page, steps);
        }
    }

    /// Turns `lines` to the cohort of a unit of birth, unless they are of that cohort.
    #[inline(always)]
    pub(crate) fn turn_to(&self, born: u64, lines: &mut CohortLines<'a>)
        requires born { born ≤ self.now.unit }
        requires lines { lines.old ≡ record { plan = self.now.plan; table = self.now.table; born = lines.old.born; unit = self.now.unit } }
        ensures { lines.new ≡ record { plan = self.now.plan; table = self.now.table; born = born; unit = self.now.unit } }
    {
        if lines.born() != born {
            *lines = CohortLines::new(self.rows, self.table, born, self.unit);
        }
    }

    /// Appends the line of the row at a place of a run, which must have the key `key`. `lines` are those of the row's cohort.
    fn put_mixed_line<L: Ledger>(
        &self,
        row: usize,
        rows: RunRows<'_>,
        key: u64,
        lines: &CohortLines<'_>,
        pieces: &[Piece],
        items: &[ItemizedField],
        page: &mut PageBuf,
        steps: &mut Steps<L>,
    )
        requires row { row < length rows.ordinals.now }
        requires rows { AreRowsOf self.now rows }
        requires key { key ≡ key_of (generator_of self.now.plan) self.now.table (last_unit self.now.plan) (get_or rows.ordinals.now row 0) }
        requires lines { lines.now ≡ record { plan = self.now.plan; table = self.now.table; born = get_or rows.births.now row 0; unit = self.now.unit } }
        requires pieces { length rows.ordinals.now * length (layout_for self.now).columns ≤ length pieces.now }
        requires items { length items.now ≡ length pieces.now }
        requires made { (column : ℕ) → column < length (layout_for self.now).columns → is_short_at self.now.plan self.now.table column ≡ true → AreMade self.now rows.ordinals.now pieces.now (column * length rows.ordinals.now) column }
        requires itemized { (column : ℕ) → column < length (layout_for self.now).columns → (column_of self.now.plan self.now.table column).itemized ≡ true → AreItemized self.now rows items.now (column * length rows.ordinals.now) column }
        requires room { length page.old.text + max_line (layout_of self.now.plan) self.now.table ≤ page.old.room }
        ensures text { page.new ≡ record page.old { text = page.old.text ++ line_for self.now (get_or rows.entry.ordinals.now row 0) } }
        ensures size { length (line_for self.now (get_or rows.entry.ordinals.now row 0)) ≤ max_line (layout_of self.now.plan) self.now.table }
        ensures fields { HasSizes self.now (get_or rows.entry.ordinals.now row 0) }
        ensures steps { steps.new ≤ steps.old + sum_by (asked_long self.now) (range_with_len 0 (length (layout_for self.now).columns)) }
    {
        let count = rows.ordinals.len();
        for column in 0..self.column_count() {
            let place = column * count + row;
            let (piece, field) = (&pieces[place], items[place]);
            self.put_mixed_field(column, row, rows, key, lines, piece, field, page, steps);
        }
    }

    /// Appends a row's field in the column at a place and the byte after it. A short field is put as its piece. A field of several
    /// items is put by what is drawn for it. Any other field is put by its row.
    #[inline(always)]
    fn put_mixed_field<L: Ledger>(
        &self,
        column: usize,
        row: usize,
        rows: RunRows<'_>,
        key: u64,
        lines: &CohortLines<'_>,
        piece: &Piece,
        field: ItemizedField,
        page: &mut PageBuf,
        steps: &mut Steps<L>,
    )
        requires column { column < length (layout_for self.now).columns }
        requires row { row < length rows.ordinals.now }
        requires rows { AreRowsOf self.now rows }
        requires key { key ≡ key_of (generator_of self.now.plan) self.now.table (last_unit self.now.plan) (get_or rows.ordinals.now row 0) }
        requires lines { lines.now ≡ record { plan = self.now.plan; table = self.now.table; born = get_or rows.births.now row 0; unit = self.now.unit } }
        requires text { is_short_at self.now.plan self.now.table column ≡ true → piece_text piece.now ≡ text_behind self.now (get_or rows.ordinals.now row 0) column }
        requires size { is_short_at self.now.plan self.now.table column ≡ true → length (text_at self.now (get_or rows.ordinals.now row 0) column) ≤ size_for self.now column }
        requires itemized { (column_of self.now.plan self.now.table column).itemized ≡ true → field ≡ itemized_field self.now.plan (column_of self.now.plan self.now.table column) (run_row rows row) }
        requires room { length page.old.text + (size_for self.now column + 1) ≤ page.old.room }
        ensures text { page.new ≡ record page.old { text = page.old.text ++ text_behind self.now (get_or rows.entry.ordinals.now row 0) column } }
        ensures size { length (text_at self.now (get_or rows.entry.ordinals.now row 0) column) ≤ size_for self.now column }
        ensures steps { steps.new ≤ steps.old + asked_long self.now column }
    {
        let (short, columns) = (self.lines.short(), self.lines.columns());
        let own = &columns[column];
        if short[column] {
            page.put_piece(piece);
        } else if own.is_itemized() {
            own.put_itemized(self.rows.plan(), field, page);
        } else {
            self.put_other_field(column, row, rows, key, lines, page, steps);
        }
    }

    /// Appends a row's field, with the byte after it, by the row itself.
    fn put_other_field<L: Ledger>(
        &self,
        column: usize,
        row: usize,
        rows: RunRows<'_>,
        key: u64,
        lines: &CohortLines<'_>,
        page: &mut PageBuf,
        steps: &mut Steps<L>,
    )
        requires column { column < length (layout_for self.now).columns }
        requires row { row < length rows.ordinals.now }
        requires rows { AreRowsOf self.now rows }
        requires key { key ≡ key_of (generator_of self.now.plan) self.now.table (last_unit self.now.plan) (get_or rows.ordinals.now row 0) }
        requires lines { lines.now ≡ record { plan = self.now.plan; table = self.now.table; born = get_or rows.births.now row 0; unit = self.now.unit } }
        requires room { length page.old.text + (size_for self.now column + 1) ≤ page.old.room }
        ensures text { page.new ≡ record page.old { text = page.old.text ++ text_behind self.now (get_or rows.entry.ordinals.now row 0) column } }
        ensures size { length (text_at self.now (get_or rows.entry.ordinals.now row 0) column) ≤ size_for self.now column }
        ensures steps { steps.new ≤ steps.old + asked_for self.now column }
    {
        let plan = self.rows.plan();
        let (born, changed) = (rows.births[row], rows.changes[row]);
        let index = rows.ordinals[row] - cohort(plan, self.table, born).first;
        let columns = self.lines.columns();
        let values = CohortValues::kept(plan, self.table, columns, born, changed);
        lines.put_field_behind(column, index, key, &values, page, steps);
    }
}

/// Whether each flag is true.
pub fn are_all(flags: &[bool]) -> bool
    ensures { result ≡ true → (i : ℕ) → i < length flags.now → get_or flags.now i false ≡ true }
{
    for flag in flags {
        if !*flag {
            return false;
        }
    }
    true
}
