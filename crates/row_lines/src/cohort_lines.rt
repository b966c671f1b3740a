//! The lines of the rows of a cohort. What doesn't change from row to row is worked out once.

ghost use Rattle.std.specs.Prelude.{◌≡◌, ◌<◌, ◌≤◌, ℕ, ◌+◌, ◌*◌, ◌==◌, [], ◌∷◌, ◌++◌, IfSome, false, get_or, if◌then◌else◌, true, length, min, sum_by};
ghost use Rattle.std.specs.List.{range_with_len};
ghost use Rattle.line_pages.specs.Pieces.{piece_text};
ghost use Rattle.line_pages.specs.Rows.{piece_text_at};
ghost use Rattle.cohort_sizes.specs.Births.{birth, born_count, cohort_size};
ghost use Rattle.schema_facts.specs.ColumnFacts.{field_cost, field_facts};
ghost use Rattle.schema_facts.specs.FieldSizes.{size_at};
ghost use Rattle.schema_facts.specs.Layout.{column_at, layout_of};
ghost use Rattle.schema_plan.specs.Limits.{IsStillColumn};
ghost use Rattle.schema_facts.specs.Lineage.{one_if};
ghost use Rattle.schema_facts.specs.TableFacts.{line_cost, max_line};
ghost use Rattle.draw_values.specs.CohortValues.{IsNumberOf};
ghost use Rattle.life_intervals.specs.CohortParents.{asked_for_change};
ghost use Rattle.life_intervals.specs.Generator.{last_unit, table_of};
ghost use Rattle.row_lines.specs.CohortLines.{asked_for, asked_for_line, asked_where, change_for, is_live_for, key_for, layout_for, line_in_cohort, size_for, text_in_cohort, values_at};
ghost use Rattle.row_lines.specs.TableLines.{behind_of};
ghost use Rattle.row_lines.specs.Lookups.{IsLookupOf, text_held};
ghost use Rattle.row_lines.specs.Totals.{IsDated, is_total, total_text};

use crate::bytes::{byte_behind, null_piece};
use crate::cohort_fields::CohortFields;
use crate::still_row::StillRow;
use draw_values::{CohortValues, Number, day_piece};
use life_intervals::{Rows, birth};
use line_pages::{PageBuf, Piece};
use row_text::put_null;
use schema_plan::{ReadyColumn, ReadyKind, ReadyLookup};
use std::marker::Model;
use std::sync::ledger::Ledger;
use step_count::Steps;

/// The lines of a cohort's rows at a unit. A contract sees the plan, the table, the unit of birth and the unit.
#[derive(Drop)]
pub struct CohortLines<'a> {
    rows: &'a Rows<'a>,
    place: u32,
    born: u64,
    unit: u64,
    fields: CohortFields<'a>,
    columns: &'a [ReadyColumn],
    delimiter: u8,
}

impl<'a> Model for CohortLines<'a> {
    ghost use Rattle.row_lines.specs.CohortLines.{AreLinesOf, LinesOf};

    ghost Value = { LinesOf };

    ghost view = { λ l. record { plan = l.rows.now; table = l.place; born = l.born; unit = l.unit } };

    ghost invariant = { λ l. AreLinesOf (record { plan = l.rows.now; table = l.place; born = l.born; unit = l.unit }) l.columns.now l.fields l.delimiter };
}

impl<'a> CohortLines<'a> {
    /// Returns the lines at `unit` of the rows of a table that are born at unit `born`.
    pub fn new(rows: &'a Rows<'a>, table: u32, born: u64, unit: u64) -> CohortLines<'a>
        requires table { table < length rows.now.schema.tables }
        requires born { born ≤ unit }
        requires unit { unit ≤ last_unit rows.now }
        ensures { result ≡ record { plan = rows.now; table = table; born = born; unit = unit } }
    {
        let plan = rows.plan();
        let _sound = plan.schema(); // and the lookups among its columns are
        CohortLines {
            rows,
            place: table,
            born,
            unit,
            fields: CohortFields::new(rows, table, born, unit),
            columns: plan.columns(table),
            delimiter: plan.delimiter(),
        }
    }

    /// Returns the unit of the rows' birth.
    #[inline(always)]
    pub(crate) fn born(&self) -> u64
        ensures { result ≡ self.now.born }
    {
        self.born
    }

    /// Returns the key of the row with an index in the cohort. Takes one step if the keys are scrambled, else none. The cost of a
    /// line includes this step.
    #[inline]
    pub fn key<L: Ledger>(&self, index: u64, steps: &mut Steps<L>) -> u64
        requires { index < cohort_size (layout_for self.now).births self.now.born }
        ensures key { result ≡ key_for self.now index }
        ensures steps { steps.new ≡ steps.old + one_if (layout_for self.now).key.scramble }
    {
        let row = self.fields.found(index);
        self.rows.found_key(self.place, row, steps)
    }

    /// Returns the unit of the last change of the row with an index in the cohort.
    #[inline(always)]
    fn changed<L: Ledger>(&self, index: u64, steps: &mut Steps<L>) -> u64
        requires { index < cohort_size (layout_for self.now).births self.now.born }
        ensures unit { result ≡ change_for self.now index }
        ensures within { result ≤ self.now.unit }
        ensures steps { steps.new ≤ steps.old + asked_for_change self.now.plan self.now.table }
    {
        let row = self.fields.found(index);
        self.rows.found_change(self.place, row, self.unit, steps)
    }

    /// Appends the line of the row with an index in the cohort. The row must be alive at the unit. The size of the table's greatest
    /// line must be free. Takes at most as many permutations as the cost of a row counts for its line.
    pub fn put_line<L: Ledger>(&self, index: u64, buf: &mut PageBuf, steps: &mut Steps<L>)
        requires row { index < cohort_size (layout_for self.now).births self.now.born }
        requires alive { is_live_for self.now index ≡ true }
        requires room { length buf.old.text + max_line (layout_of self.now.plan) self.now.table ≤ buf.old.room }
        ensures line { buf.new ≡ record buf.old { text = buf.old.text ++ line_in_cohort self.now index } }
        ensures size { length (line_in_cohort self.now index) ≤ max_line (layout_of self.now.plan) self.now.table }
        ensures steps { steps.new ≤ steps.old + line_cost (layout_of self.now.plan) self.now.table }
    {
        let _limits = self.rows.plan().schema(); // the first column is the key
        let key = self.key(index, steps);
        let changed = self.changed(index, steps);
        self.put_changed_line(index, key, changed, buf, steps);
    }

    /// Appends the line of a row whose key and unit of last change are known. Takes only the permutations of the row's fields, and none
    /// for its own key.
    pub fn put_changed_line<L: Ledger>(
        &self,
        index: u64,
        key: u64,
        changed: u64,
        buf: &mut PageBuf,
        steps: &mut Steps<L>,
    )
        requires row { index < cohort_size (layout_for self.now).births self.now.born }
        requires alive { is_live_for self.now index ≡ true }
        requires key { key ≡ key_for self.now index }
        requires changed { changed ≡ change_for self.now index }
        requires room { length buf.old.text + max_line (layout_of self.now.plan) self.now.table ≤ buf.old.room }
        ensures line { buf.new ≡ record buf.old { text = buf.old.text ++ line_in_cohort self.now index } }
        ensures size { length (line_in_cohort self.now index) ≤ max_line (layout_of self.now.plan) self.now.table }
        ensures steps { steps.new ≤ steps.old + asked_for_line self.now }
    {
        let plan = self.rows.plan();
        let values = CohortValues::new(plan, self.place, self.born, changed);
        self.put_fields(index, key, &values, buf, steps);
    }

    /// Appends the line of a row. `values` are those of the rows of its cohort with its unit of last change.
    fn put_fields<L: Ledger>(
        &self,
        index: u64,
        key: u64,
        values: &CohortValues<'_>,
        buf: &mut PageBuf,
        steps: &mut Steps<L>,
    )
        requires row { index < cohort_size (layout_for self.now).births self.now.born }
        requires alive { is_live_for self.now index ≡ true }
        requires key { key ≡ key_for self.now index }
        requires values { values.now ≡ values_at self.now (change_for self.now index) }
        requires room { length buf.old.text + max_line (layout_of self.now.plan) self.now.table ≤ buf.old.room }
        ensures line { buf.new ≡ record buf.old { text = buf.old.text ++ line_in_cohort self.now index } }
        ensures size { length (line_in_cohort self.now index) ≤ max_line (layout_of self.now.plan) self.now.table }
        ensures steps { steps.new ≤ steps.old + asked_for_line self.now }
    {
        for column in 0..self.columns.len() {
            put_delimiter(buf, self.delimiter, column);
            self.put_field(column, index, key, values, buf, steps);
        }
        buf.put_piece(&Piece::of_byte(b'\n'));
    }

    /// Appends the field of the column at a place.
    #[inline(always)]
    fn put_field<L: Ledger>(
        &self,
        column: usize,
        index: u64,
        key: u64,
        values: &CohortValues<'_>,
        buf: &mut PageBuf,
        steps: &mut Steps<L>,
    )
        requires column { column < length (layout_for self.now).columns }
        requires row { index < cohort_size (layout_for self.now).births self.now.born }
        requires alive { is_live_for self.now index ≡ true }
        requires values { values.now ≡ values_at self.now (change_for self.now index) }
        requires key { key ≡ key_for self.now index }
        requires room { length buf.old.text + size_for self.now column ≤ buf.old.room }
        ensures text { buf.new ≡ record buf.old { text = buf.old.text ++ text_in_cohort self.now index column } }
        ensures size { length (text_in_cohort self.now index column) ≤ size_for self.now column }
        ensures steps { steps.new ≤ steps.old + asked_for true self.now column }
    {
        let columns = self.columns;
        match &columns[column].kind {
            ReadyKind::Lookup(lookup) => {
                self.put_lookup(column, lookup, index, values, buf, steps)
            }
            _ => self
                .fields
                .put(column, index, Some(key), values, buf, steps),
        }
    }

    /// Appends the field of the column at a place and the byte after it.
    #[inline(always)]
    pub(crate) fn put_field_behind<L: Ledger>(
        &self,
        column: usize,
        index: u64,
        key: u64,
        values: &CohortValues<'_>,
        buf: &mut PageBuf,
        steps: &mut Steps<L>,
    )
        requires column { column < length (layout_for self.now).columns }
        requires row { index < cohort_size (layout_for self.now).births self.now.born }
        requires alive { is_live_for self.now index ≡ true }
        requires values { values.now ≡ values_at self.now (change_for self.now index) }
        requires key { key ≡ key_for self.now index }
        requires room { length buf.old.text + (size_for self.now column + 1) ≤ buf.old.room }
        ensures text { buf.new ≡ record buf.old { text = buf.old.text ++ (text_in_cohort self.now index column ++ behind_of self.now.plan self.now.table column ∷ []) } }
        ensures size { length (text_in_cohort self.now index column) ≤ size_for self.now column }
        ensures steps { steps.new ≤ steps.old + asked_for true self.now column }
    {
        self.put_field(column, index, key, values, buf, steps);
        let behind = byte_behind(self.rows.plan(), self.place, column);
        buf.put_piece(&Piece::of_byte(behind));
    }

    /// Returns the field of the column at a place, which must be one of dates after dates, and the byte after it.
    #[inline(always)]
    pub(crate) fn date_piece<L: Ledger>(
        &self,
        column: usize,
        index: u64,
        values: &CohortValues<'_>,
        behind: u8,
        steps: &mut Steps<L>,
    ) -> Piece
        requires column { column < length (layout_for self.now).columns }
        requires dated { IsDated (column_at (layout_for self.now).columns column).kind }
        requires row { index < cohort_size (layout_for self.now).births self.now.born }
        requires values { values.now ≡ values_at self.now (change_for self.now index) }
        ensures text { piece_text result ≡ text_in_cohort self.now index column ++ behind ∷ [] }
        ensures size { length (text_in_cohort self.now index column) ≤ size_for self.now column }
        ensures steps { steps.new ≤ steps.old + asked_for true self.now column }
    {
        match self.fields.day(column, index, values, steps) {
            Some(day) => day_piece(day, Piece::of_byte(behind)),
            None => null_piece(behind),
        }
    }

    /// Returns the number that the row holds in the column at a place, which must be a sum or a product. Returns None if the field is
    /// null.
    #[inline(always)]
    pub(crate) fn total<L: Ledger>(
        &self,
        column: usize,
        index: u64,
        values: &CohortValues<'_>,
        steps: &mut Steps<L>,
    ) -> Option<Number>
        requires column { column < length (layout_for self.now).columns }
        requires total { is_total (column_at (layout_for self.now).columns column).kind ≡ true }
        requires row { index < cohort_size (layout_for self.now).births self.now.born }
        requires values { values.now ≡ values_at self.now (change_for self.now index) }
        ensures text { text_in_cohort self.now index column ≡ total_text result }
        ensures within { IfSome result (IsNumberOf (field_facts (layout_of self.now.plan) self.now.table column).numbers) }
        ensures steps { steps.new ≤ steps.old + asked_for true self.now column }
    {
        self.fields.number(column, index, values, steps)
    }

    /// Appends the field of the lookup in the column at a place.
    fn put_lookup<L: Ledger>(
        &self,
        column: usize,
        lookup: &ReadyLookup,
        index: u64,
        values: &CohortValues<'_>,
        buf: &mut PageBuf,
        steps: &mut Steps<L>,
    )
        requires lookup { IsLookupOf self.now column lookup.now }
        requires row { index < cohort_size (layout_for self.now).births self.now.born }
        requires alive { is_live_for self.now index ≡ true }
        requires values { values.now ≡ values_at self.now (change_for self.now index) }
        requires room { length buf.old.text + size_for self.now column ≤ buf.old.room }
        ensures text { buf.new ≡ record buf.old { text = buf.old.text ++ text_in_cohort self.now index column } }
        ensures size { length (text_in_cohort self.now index column) ≤ size_for self.now column }
        ensures steps { steps.new ≤ steps.old + asked_for true self.now column }
    {
        if values.is_null(column, self.fields.ordinal(index)) {
            put_null(buf);
            return;
        }
        let columns = self.columns;
        let ReadyKind::Reference(reference) = &columns[lookup.via as usize].kind else {
            return; // it is one
        };
        let parent = self
            .fields
            .parent(lookup.via as u32, reference, index, steps);
        self.put_looked_up(lookup, parent, buf, steps);
    }

    /// Appends what a lookup shows of the row of an ordinal in the parent's table.
    #[inline(always)]
    fn put_looked_up<L: Ledger>(
        &self,
        lookup: &ReadyLookup,
        parent: u64,
        buf: &mut PageBuf,
        steps: &mut Steps<L>,
    )
        requires table { lookup.now.parent < length self.now.plan.schema.tables }
        requires born { parent < born_count (table_of self.now.plan lookup.now.parent).births self.now.unit }
        requires column { IsStillColumn (table_of self.now.plan lookup.now.parent) lookup.now.column }
        requires room { length buf.old.text + size_at (layout_of self.now.plan).delimiter (table_of self.now.plan lookup.now.parent).columns lookup.now.column ≤ buf.old.room }
        ensures text { buf.new ≡ record buf.old { text = buf.old.text ++ text_held self.now.plan lookup.now.parent self.now.unit parent lookup.now.column } }
        ensures size { length (text_held self.now.plan lookup.now.parent self.now.unit parent lookup.now.column) ≤ size_at (layout_of self.now.plan).delimiter (table_of self.now.plan lookup.now.parent).columns lookup.now.column }
        ensures steps { steps.new ≤ steps.old + field_cost (layout_of self.now.plan) lookup.now.parent lookup.now.column }
    {
        let table = lookup.parent;
        let born = birth(self.rows.plan(), table, parent);
        let row = StillRow::new(self.rows, table, parent, born, self.unit);
        row.put(lookup.column as usize, buf, steps);
    }
}

/// Appends the delimiter before the column at a place. The first column has none.
#[inline(always)]
fn put_delimiter(buf: &mut PageBuf, delimiter: u8, column: usize)
    requires { length buf.old.text + min column 1 ≤ buf.old.room }
    ensures { buf.new ≡ record buf.old { text = buf.old.text ++ (if column == 0 then [] else delimiter ∷ []) } }
{
    if column > 0 {
        buf.put_piece(&Piece::of_byte(delimiter));
    }
}
