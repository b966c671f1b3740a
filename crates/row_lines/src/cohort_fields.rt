//! The fields of the rows of a cohort, except lookups. What doesn't change from row to row is worked out once.

ghost use Rattle.std.specs.Prelude.{◌≡◌, ◌<◌, ◌≤◌, ◌+◌, ◌^◌, ◌++◌, All, IfSome, false, flat_map, if◌then◌else◌, is_some, length, sum_by, true};
ghost use Rattle.row_text.specs.Fields.{field_text};
ghost use Rattle.schema_plan.specs.declared.ready.ReadyKind.TheVariants.{Template};
ghost use Rattle.cohort_sizes.specs.Births.{born_count, cohort_size};
ghost use Rattle.schema_facts.specs.Layout.{column_at, layout_of};
ghost use Rattle.schema_plan.specs.Limits.{IsTableInLimits, is_lookup_kind};
ghost use Rattle.schema_facts.specs.Lineage.{choice_cost, one_if};
ghost use Rattle.schema_plan.specs.Ready.{ready_kind};
ghost use Rattle.draw_values.specs.Values.{is_own, put_of, written};
ghost use Rattle.life_intervals.specs.CohortParents.{IsReferenceOf, held_cost, reference_by};
ghost use Rattle.life_intervals.specs.Found.{IsFound};
ghost use Rattle.life_intervals.specs.Generator.{last_unit, table_of};
ghost use Rattle.row_lines.specs.CohortLines.{asked_for, held_key_for, key_for, layout_for, ordinal_of, parent_for, reference_value, size_for, text_in_table, values_at};
ghost use Rattle.row_lines.specs.Parts.{IsCitable, IsCitation, IsPartOfTemplate, cited_asked, cited_for, cited_size, cited_text, padded_size, part_asked, part_size, written_padded, written_part};

use draw_values::{CohortValues, Put};
use life_intervals::{FoundRow, Rows, cohort};
use line_pages::PageBuf;
use row_text::put_null;
use schema_plan::{ReadyColumn, ReadyKind, ReadyPart, ReadyReference};
use std::marker::Model;
use std::sync::ledger::Ledger;
use step_count::Steps;

/// The fields, at one unit, of the rows of a table that are born at another. A contract sees the plan, the table and the two units.
///
/// The values that are handed in tell what a field takes from its row's last change. The row's key is handed in too, if it is
/// known.
#[derive(Drop)]
pub(crate) struct CohortFields<'a> {
    pub(crate) rows: &'a Rows<'a>,
    pub(crate) table: u32,
    born: u64,
    pub(crate) unit: u64,
    first: u64,
    pub(crate) columns: &'a [ReadyColumn],
}

impl<'a> Model for CohortFields<'a> {
    ghost use Rattle.row_lines.specs.CohortLines.{AreFieldsOf, LinesOf};

    ghost Value = { LinesOf };

    ghost view = { λ f. record { plan = f.rows.now; table = f.table; born = f.born; unit = f.unit } };

    ghost invariant = { λ f. AreFieldsOf (record { plan = f.rows.now; table = f.table; born = f.born; unit = f.unit }) f.columns.now f.first };
}

impl<'a> CohortFields<'a> {
    /// Returns the fields at `unit` of the rows of a table that are born at unit `born`.
    #[inline(always)]
    pub(crate) fn new(rows: &'a Rows<'a>, table: u32, born: u64, unit: u64) -> CohortFields<'a>
        requires table { table < length rows.now.schema.tables }
        requires born { born ≤ unit }
        requires unit { unit ≤ last_unit rows.now }
        ensures { result ≡ record { plan = rows.now; table = table; born = born; unit = unit } }
    {
        let plan = rows.plan();
        let _limits = plan.schema(); // each table is within its limits
        CohortFields {
            rows,
            table,
            born,
            unit,
            first: cohort(plan, table, born).first,
            columns: plan.columns(table),
        }
    }

    /// Returns the ordinal of the row with an index in the cohort.
    #[inline(always)]
    pub(crate) fn ordinal(&self, index: u64) -> u64
        requires { index < cohort_size (layout_for self.now).births self.now.born }
        ensures ordinal { result ≡ ordinal_of self.now index }
        ensures early { self.now.born ≤ self.now.unit }
        ensures limits { IsTableInLimits (last_unit self.now.plan) (layout_for self.now) }
    {
        self.first + index
    }

    /// Returns the row with an index in the cohort.
    #[inline(always)]
    pub(crate) fn found(&self, index: u64) -> FoundRow
        requires { index < cohort_size (layout_for self.now).births self.now.born }
        ensures found { IsFound self.now.plan self.now.table result }
        ensures ordinal { result.ordinal ≡ ordinal_of self.now index }
        ensures born { result.born ≡ self.now.born }
        ensures index { result.index ≡ index }
    {
        FoundRow {
            ordinal: self.ordinal(index),
            born: self.born,
            index,
        }
    }

    /// Returns the key of the row with an index. Finds it if it isn't known.
    #[inline(always)]
    fn key<L: Ledger>(&self, index: u64, key: Option<u64>, steps: &mut Steps<L>) -> u64
        requires row { index < cohort_size (layout_for self.now).births self.now.born }
        requires known { IfSome key (λ k. k ≡ key_for self.now index) }
        ensures key { result ≡ key_for self.now index }
        ensures steps { steps.new ≡ steps.old + (if is_some key then 0 else one_if (layout_for self.now).key.scramble) }
    {
        match key {
            Some(key) => key,
            None => self.rows.found_key(self.table, self.found(index), steps),
        }
    }

    /// Returns the ordinal of the parent that the row with an index is born with, by the reference in the column at a place. Takes
    /// one step, and one more if the reference is drawn.
    #[inline(always)]
    pub(crate) fn parent<L: Ledger>(
        &self,
        column: u32,
        reference: &ReadyReference,
        index: u64,
        steps: &mut Steps<L>,
    ) -> u64
        requires row { index < cohort_size (layout_for self.now).births self.now.born }
        requires reference { IsReferenceOf self.now.plan self.now.table column reference.now }
        ensures parent { result ≡ parent_for self.now index (reference_by column reference.now) }
        ensures born { result < born_count (table_of self.now.plan reference.now.parent).births self.now.born }
        ensures table { reference.now.parent < self.now.table }
        ensures steps { steps.new ≡ steps.old + choice_cost reference.now.drawn }
    {
        let row = self.found(index);
        self.rows
            .found_parent(self.table, row, column, reference, steps)
    }

    /// Returns the key of the parent that the row with an index still has at the unit, by the reference in the column at a place.
    /// Returns None if the row has lost the parent.
    #[inline(always)]
    fn held_key<L: Ledger>(
        &self,
        column: u32,
        reference: &ReadyReference,
        index: u64,
        steps: &mut Steps<L>,
    ) -> Option<u64>
        requires row { index < cohort_size (layout_for self.now).births self.now.born }
        requires reference { IsReferenceOf self.now.plan self.now.table column reference.now }
        ensures key { result ≡ held_key_for self.now index (reference_by column reference.now) }
        ensures limit { IfSome result (λ key. key < 2 ^ 64) }
        ensures steps { steps.new ≤ steps.old + (held_cost (layout_of self.now.plan).tables (reference_by column reference.now) + one_if (table_of self.now.plan reference.now.parent).key.scramble) }
    {
        let row = self.found(index);
        match self
            .rows
            .found_held_parent(self.table, row, column, reference, self.unit, steps)
        {
            Some(parent) => Some(self.rows.key(reference.parent, parent, steps)),
            None => None,
        }
    }

    /// Appends the key of the parent that the row still has. Appends nothing if the row has lost the parent.
    #[inline(always)]
    fn put_parent<L: Ledger>(
        &self,
        column: u32,
        reference: &ReadyReference,
        index: u64,
        buf: &mut PageBuf,
        steps: &mut Steps<L>,
    ) -> Put
        requires row { index < cohort_size (layout_for self.now).births self.now.born }
        requires reference { IsReferenceOf self.now.plan self.now.table column reference.now }
        requires room { length buf.old.text + 20 ≤ buf.old.room }
        ensures put { result ≡ put_of (reference_value self.now index (reference_by column reference.now)) }
        ensures text { buf.new ≡ record buf.old { text = buf.old.text ++ written (layout_of self.now.plan).delimiter (reference_value self.now index (reference_by column reference.now)) } }
        ensures size { length (field_text (layout_of self.now.plan).delimiter (reference_value self.now index (reference_by column reference.now))) ≤ 20 }
        ensures steps { steps.new ≤ steps.old + (held_cost (layout_of self.now.plan).tables (reference_by column reference.now) + one_if (table_of self.now.plan reference.now.parent).key.scramble) }
    {
        match self.held_key(column, reference, index, steps) {
            Some(key) => {
                buf.put_number(key);
                Put::Text
            }
            None => Put::Null,
        }
    }

    /// Appends the field of the column at a place, which must not be a lookup.
    #[inline(always)]
    pub(crate) fn put<L: Ledger>(
        &self,
        column: usize,
        index: u64,
        key: Option<u64>,
        values: &CohortValues<'_>,
        buf: &mut PageBuf,
        steps: &mut Steps<L>,
    )
        requires column { column < length (layout_for self.now).columns }
        requires no_lookup { is_lookup_kind (column_at (layout_for self.now).columns column).kind ≡ false }
        requires row { index < cohort_size (layout_for self.now).births self.now.born }
        requires values { values.now ≡ values_at self.now values.now.changed }
        requires key { IfSome key (λ k. k ≡ key_for self.now index) }
        requires room { length buf.old.text + size_for self.now column ≤ buf.old.room }
        ensures text { buf.new ≡ record buf.old { text = buf.old.text ++ text_in_table self.now index values.now.changed column } }
        ensures size { length (text_in_table self.now index values.now.changed column) ≤ size_for self.now column }
        ensures steps { steps.new ≤ steps.old + asked_for (is_some key) self.now column }
    {
        let columns = self.columns;
        match &columns[column].kind {
            ReadyKind::Key => buf.put_number(self.key(index, key, steps)),
            ReadyKind::Template { parts } => {
                self.put_template(column, parts.as_slice(), index, key, values, buf, steps)
            }
            ReadyKind::Reference(reference) => {
                self.put_reference(column as u32, reference, index, buf, steps)
            }
            ReadyKind::After(_) | ReadyKind::Sum { .. } | ReadyKind::Product { .. } => {
                self.put_derived(column, index, key, values, buf, steps)
            }
            _ => self.put_own(column, index, values, buf),
        }
    }

    /// Appends the field of a reference: the key of the parent that the row still has, or a null if the row has lost it.
    #[inline(always)]
    fn put_reference<L: Ledger>(
        &self,
        column: u32,
        reference: &ReadyReference,
        index: u64,
        buf: &mut PageBuf,
        steps: &mut Steps<L>,
    )
        requires row { index < cohort_size (layout_for self.now).births self.now.born }
        requires reference { IsReferenceOf self.now.plan self.now.table column reference.now }
        requires room { length buf.old.text + 20 ≤ buf.old.room }
        ensures text { buf.new ≡ record buf.old { text = buf.old.text ++ field_text (layout_of self.now.plan).delimiter (reference_value self.now index (reference_by column reference.now)) } }
        ensures size { length (field_text (layout_of self.now.plan).delimiter (reference_value self.now index (reference_by column reference.now))) ≤ 20 }
        ensures steps { steps.new ≤ steps.old + (held_cost (layout_of self.now.plan).tables (reference_by column reference.now) + one_if (table_of self.now.plan reference.now.parent).key.scramble) }
    {
        match self.put_parent(column, reference, index, buf, steps) {
            Put::Text => {}
            Put::Null => put_null(buf),
        }
    }

    /// Appends the field of a template with these parts.
    fn put_template<L: Ledger>(
        &self,
        column: usize,
        parts: &[ReadyPart],
        index: u64,
        key: Option<u64>,
        values: &CohortValues<'_>,
        buf: &mut PageBuf,
        steps: &mut Steps<L>,
    )
        requires column { column < length (layout_for self.now).columns }
        requires template { ready_kind (layout_of self.now.plan).delimiter (column_at (layout_for self.now).columns column).kind ≡ Template parts.now }
        requires row { index < cohort_size (layout_for self.now).births self.now.born }
        requires values { values.now ≡ values_at self.now values.now.changed }
        requires key { IfSome key (λ k. k ≡ key_for self.now index) }
        requires room { length buf.old.text + size_for self.now column ≤ buf.old.room }
        ensures text { buf.new ≡ record buf.old { text = buf.old.text ++ text_in_table self.now index values.now.changed column } }
        ensures size { length (text_in_table self.now index values.now.changed column) ≤ size_for self.now column }
        ensures steps { steps.new ≤ steps.old + asked_for (is_some key) self.now column }
    {
        if values.is_null(column, self.ordinal(index)) {
            put_null(buf);
        } else {
            self.put_parts(parts, index, key, values, buf, steps);
        }
    }

    /// Appends some parts of a template, one after the other.
    fn put_parts<L: Ledger>(
        &self,
        parts: &[ReadyPart],
        index: u64,
        key: Option<u64>,
        values: &CohortValues<'_>,
        buf: &mut PageBuf,
        steps: &mut Steps<L>,
    )
        requires parts { All (IsPartOfTemplate self.now) parts.now }
        requires row { index < cohort_size (layout_for self.now).births self.now.born }
        requires values { values.now ≡ values_at self.now values.now.changed }
        requires key { IfSome key (λ k. k ≡ key_for self.now index) }
        requires room { length buf.old.text + sum_by (part_size self.now) parts.now ≤ buf.old.room }
        ensures text { buf.new ≡ record buf.old { text = buf.old.text ++ flat_map (written_part self.now index values.now.changed) parts.now } }
        ensures size { length (flat_map (written_part self.now index values.now.changed) parts.now) ≤ sum_by (part_size self.now) parts.now }
        ensures steps { steps.new ≤ steps.old + sum_by (part_asked (is_some key) self.now) parts.now }
    {
        for part in parts {
            self.put_part(part, index, key, values, buf, steps);
        }
    }

    /// Appends a part of a template.
    #[inline(always)]
    fn put_part<L: Ledger>(
        &self,
        part: &ReadyPart,
        index: u64,
        key: Option<u64>,
        values: &CohortValues<'_>,
        buf: &mut PageBuf,
        steps: &mut Steps<L>,
    )
        requires part { IsPartOfTemplate self.now part.now }
        requires row { index < cohort_size (layout_for self.now).births self.now.born }
        requires values { values.now ≡ values_at self.now values.now.changed }
        requires key { IfSome key (λ k. k ≡ key_for self.now index) }
        requires room { length buf.old.text + part_size self.now part.now ≤ buf.old.room }
        ensures text { buf.new ≡ record buf.old { text = buf.old.text ++ written_part self.now index values.now.changed part.now } }
        ensures size { length (written_part self.now index values.now.changed part.now) ≤ part_size self.now part.now }
        ensures steps { steps.new ≤ steps.old + part_asked (is_some key) self.now part.now }
    {
        match part {
            ReadyPart::Literal(written) => buf.put(written.as_slice()),
            ReadyPart::Cited { column, width } => {
                self.put_padded(*column as usize, *width, index, key, values, buf, steps)
            }
        }
    }

    /// Appends the field of the column at a place, which must be citable, filled with zeros up to `width` bytes. A null field appends
    /// nothing.
    #[inline(always)]
    fn put_padded<L: Ledger>(
        &self,
        column: usize,
        width: u64,
        index: u64,
        key: Option<u64>,
        values: &CohortValues<'_>,
        buf: &mut PageBuf,
        steps: &mut Steps<L>,
    )
        requires citation { IsCitation self.now column width }
        requires row { index < cohort_size (layout_for self.now).births self.now.born }
        requires values { values.now ≡ values_at self.now values.now.changed }
        requires key { IfSome key (λ k. k ≡ key_for self.now index) }
        requires room { length buf.old.text + padded_size self.now column width ≤ buf.old.room }
        ensures text { buf.new ≡ record buf.old { text = buf.old.text ++ written_padded (layout_of self.now.plan).delimiter width (cited_for self.now index values.now.changed column) } }
        ensures size { length (written_padded (layout_of self.now.plan).delimiter width (cited_for self.now index values.now.changed column)) ≤ padded_size self.now column width }
        ensures steps { steps.new ≤ steps.old + cited_asked (is_some key) self.now column }
    {
        let from = buf.text().len();
        match self.put_cited(column, index, key, values, buf, steps) {
            Put::Text => buf.pad(from, width as usize),
            Put::Null => {}
        }
    }

    /// Appends the field of the column at a place, which must be citable. A null field appends nothing.
    #[inline(always)]
    fn put_cited<L: Ledger>(
        &self,
        column: usize,
        index: u64,
        key: Option<u64>,
        values: &CohortValues<'_>,
        buf: &mut PageBuf,
        steps: &mut Steps<L>,
    ) -> Put
        requires column { IsCitable self.now column }
        requires row { index < cohort_size (layout_for self.now).births self.now.born }
        requires values { values.now ≡ values_at self.now values.now.changed }
        requires key { IfSome key (λ k. k ≡ key_for self.now index) }
        requires room { length buf.old.text + cited_size self.now column ≤ buf.old.room }
        ensures put { result ≡ put_of (cited_for self.now index values.now.changed column) }
        ensures text { buf.new ≡ record buf.old { text = buf.old.text ++ cited_text self.now index values.now.changed column } }
        ensures size { length (cited_text self.now index values.now.changed column) ≤ cited_size self.now column }
        ensures steps { steps.new ≤ steps.old + cited_asked (is_some key) self.now column }
    {
        let columns = self.columns;
        match &columns[column].kind {
            ReadyKind::Key => {
                buf.put_number(self.key(index, key, steps));
                Put::Text
            }
            ReadyKind::Reference(reference) => {
                self.put_parent(column as u32, reference, index, buf, steps)
            }
            ReadyKind::After(_) => self.put_day(column, index, values, buf, steps),
            ReadyKind::Sum { .. } | ReadyKind::Product { .. } => {
                self.put_total(column, index, values, buf, steps)
            }
            _ => values.put(column, self.ordinal(index), buf),
        }
    }

    /// Appends the field of a date after a date, a sum or a product, or a null.
    fn put_derived<L: Ledger>(
        &self,
        column: usize,
        index: u64,
        key: Option<u64>,
        values: &CohortValues<'_>,
        buf: &mut PageBuf,
        steps: &mut Steps<L>,
    )
        requires column { IsCitable self.now column }
        requires row { index < cohort_size (layout_for self.now).births self.now.born }
        requires values { values.now ≡ values_at self.now values.now.changed }
        requires key { IfSome key (λ k. k ≡ key_for self.now index) }
        requires room { length buf.old.text + size_for self.now column ≤ buf.old.room }
        ensures text { buf.new ≡ record buf.old { text = buf.old.text ++ text_in_table self.now index values.now.changed column } }
        ensures size { length (text_in_table self.now index values.now.changed column) ≤ size_for self.now column }
        ensures steps { steps.new ≤ steps.old + cited_asked (is_some key) self.now column }
    {
        match self.put_cited(column, index, key, values, buf, steps) {
            Put::Text => {}
            Put::Null => put_null(buf),
        }
    }

    /// Appends the field of a column that needs no other row.
    #[inline(always)]
    fn put_own(&self, column: usize, index: u64, values: &CohortValues<'_>, buf: &mut PageBuf)
        requires column { column < length (layout_for self.now).columns }
        requires row { index < cohort_size (layout_for self.now).births self.now.born }
        requires values { values.now ≡ values_at self.now values.now.changed }
        requires own { is_own (column_at (layout_for self.now).columns column).kind ≡ true }
        requires room { length buf.old.text + size_for self.now column ≤ buf.old.room }
        ensures text { buf.new ≡ record buf.old { text = buf.old.text ++ text_in_table self.now index values.now.changed column } }
        ensures size { length (text_in_table self.now index values.now.changed column) ≤ size_for self.now column }
    {
        match values.put(column, self.ordinal(index), buf) {
            Put::Text => {}
            Put::Null => put_null(buf),
        }
    }
}
