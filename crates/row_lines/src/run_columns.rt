//! The fields of a run's rows, column by column, as pieces.

ghost use Rattle.std.specs.Prelude.{◌≡◌, ◌<◌, ◌≤◌, ℕ, ◌+◌, ◌*◌, [], ◌∷◌, ◌++◌, codes, false, get_or, if◌then◌else◌, length, sum_by, true};
ghost use Rattle.std.specs.List.{range_with_len};
ghost use Rattle.line_pages.specs.Pieces.{piece_text};
ghost use Rattle.line_pages.specs.Rows.{piece_text_at};
ghost use Rattle.schema_facts.specs.Layout.{column_at, key_kind, layout_of};
ghost use Rattle.schema_facts.specs.Lineage.{one_if};
ghost use Rattle.life_intervals.specs.CohortParents.{IsReferenceOf, held_cost, reference_by};
ghost use Rattle.life_intervals.specs.Generator.{table_of};
ghost use Rattle.row_lines.specs.Runs.{AreKeys, layout_for};
ghost use Rattle.row_lines.specs.RunFields.{AreItemized, AreMade, AreRowsOf, asked_for, asked_short};
ghost use Rattle.row_lines.specs.RunParents.{AreKnown};
ghost use Rattle.row_lines.specs.TableLines.{behind_of, column_of, has_short_keys, is_short_at, is_valued};

use crate::bytes::{byte_behind, null_piece};
use crate::derived::Join;
use crate::run_buf::{MOST_ROWS, ValueBuf};
use crate::run_parents::Parents;
use crate::runs::RunLines;
use draw_values::{ItemizedField, RunNumbers, RunRows};
use line_pages::Piece;
use schema_plan::{ReadyKind, ReadyReference};
use std::sync::ledger::Ledger;
use step_count::Steps;

impl<'a> RunLines<'a> {
    /// Makes the short fields of a run's rows, column by column. The columns stand one after the other, each with as many pieces as
    /// there are rows.
    pub(crate) fn put_columns<L: Ledger>(
        &self,
        rows: RunRows<'_>,
        keys: &[u64],
        parents: &mut Parents<'_>,
        live: &mut [bool],
        parent_keys: &mut [u64],
        numbers: &mut RunNumbers,
        values: &mut ValueBuf,
        pieces: &mut [Piece],
        steps: &mut Steps<L>,
    )
        requires rows { AreRowsOf self.now rows }
        requires keys { AreKeys self.now rows.ordinals.now keys.now }
        requires known { AreKnown self.now rows.ordinals.now parents.old }
        requires live { length live.old ≡ length rows.ordinals.now }
        requires parent_keys { length parent_keys.old ≡ MOST_ROWS }
        requires pieces { length rows.ordinals.now * length (layout_for self.now).columns ≤ length pieces.old }
        ensures made { (column : ℕ) → column < length (layout_for self.now).columns → is_short_at self.now.plan self.now.table column ≡ true → AreMade self.now rows.entry.ordinals.now pieces.new (column * length rows.entry.ordinals.now) column }
        ensures steps { steps.new ≤ steps.old + length rows.entry.ordinals.now * sum_by (asked_short self.now) (range_with_len 0 (length (layout_for self.now).columns)) }
    {
        let count = rows.ordinals.len();
        for column in 0..self.column_count() {
            let start = column * count;
            let fields = &mut pieces[start..start + count];
            self.put_column(
                column,
                rows,
                keys,
                parents,
                parent_keys,
                live,
                numbers,
                values,
                fields,
                steps,
            );
        }
    }

    /// Draws what the fields of several items of a run's rows need before their items, column by column. The columns stand one
    /// after the other, each with as many places as there are rows.
    pub(crate) fn itemize_columns(
        &self,
        rows: RunRows<'_>,
        numbers: &mut RunNumbers,
        items: &mut [ItemizedField],
    )
        requires rows { AreRowsOf self.now rows }
        requires items { length rows.ordinals.now * length (layout_for self.now).columns ≤ length items.old }
        ensures { (column : ℕ) → column < length (layout_for self.now).columns → (column_of self.now.plan self.now.table column).itemized ≡ true → AreItemized self.now rows.entry items.new (column * length rows.entry.ordinals.now) column }
    {
        let count = rows.ordinals.len();
        for column in 0..self.column_count() {
            let start = column * count;
            self.itemize_column(column, rows, numbers, &mut items[start..start + count]);
        }
    }

    /// Draws what the fields of the column at a place need before their items, if they are of several items.
    fn itemize_column(
        &self,
        column: usize,
        rows: RunRows<'_>,
        numbers: &mut RunNumbers,
        fields: &mut [ItemizedField],
    )
        requires column { column < length (layout_for self.now).columns }
        requires rows { AreRowsOf self.now rows }
        requires fields { length fields.old ≡ length rows.ordinals.now }
        ensures { (column_of self.now.plan self.now.table column).itemized ≡ true → AreItemized self.now rows.entry fields.new 0 column }
    {
        let columns = self.lines.columns();
        let own = &columns[column];
        if own.is_itemized() {
            own.itemize(self.rows.plan(), rows, numbers, fields);
        }
    }

    /// Makes the fields of the column at a place, if they are short.
    fn put_column<L: Ledger>(
        &self,
        column: usize,
        rows: RunRows<'_>,
        keys: &[u64],
        parents: &mut Parents<'_>,
        parent_keys: &mut [u64],
        live: &mut [bool],
        numbers: &mut RunNumbers,
        values: &mut ValueBuf,
        pieces: &mut [Piece],
        steps: &mut Steps<L>,
    )
        requires column { column < length (layout_for self.now).columns }
        requires rows { AreRowsOf self.now rows }
        requires keys { AreKeys self.now rows.ordinals.now keys.now }
        requires known { AreKnown self.now rows.ordinals.now parents.old }
        requires parent_keys { length parent_keys.old ≡ MOST_ROWS }
        requires live { length live.old ≡ length rows.ordinals.now }
        requires pieces { length pieces.old ≡ length rows.ordinals.now }
        ensures made { is_short_at self.now.plan self.now.table column ≡ true → AreMade self.now rows.entry.ordinals.now pieces.new 0 column }
        ensures known { AreKnown self.now rows.entry.ordinals.now parents.new }
        ensures steps { steps.new ≤ steps.old + length rows.entry.ordinals.now * asked_short self.now column }
    {
        let short = self.lines.short();
        if !short[column] {
            return;
        }
        let plan = self.rows.plan();
        let behind = byte_behind(plan, self.table, column);
        let columns = plan.columns(self.table);
        match &columns[column].kind {
            ReadyKind::Key => self.put_own_keys(column, rows, keys, behind, pieces),
            ReadyKind::Reference(reference) => {
                self.put_references(
                    column,
                    reference,
                    rows,
                    parents,
                    parent_keys,
                    live,
                    behind,
                    pieces,
                    steps,
                )
            }
            ReadyKind::Lookup(lookup) => {
                self.put_lookups(column, lookup, rows, parents, numbers, pieces, steps)
            }
            _ => self.put_valued(column, rows, live, behind, numbers, values, pieces, steps),
        }
    }

    /// Makes the fields of a column of dates after dates, sums, products, units or drawn values.
    fn put_valued<L: Ledger>(
        &self,
        column: usize,
        rows: RunRows<'_>,
        live: &mut [bool],
        behind: u8,
        numbers: &mut RunNumbers,
        values: &mut ValueBuf,
        pieces: &mut [Piece],
        steps: &mut Steps<L>,
    )
        requires column { column < length (layout_for self.now).columns }
        requires short { is_short_at self.now.plan self.now.table column ≡ true }
        requires valued { is_valued (column_at (layout_for self.now).columns column).kind ≡ true }
        requires behind { behind ≡ behind_of self.now.plan self.now.table column }
        requires rows { AreRowsOf self.now rows }
        requires live { length live.old ≡ length rows.ordinals.now }
        requires pieces { length pieces.old ≡ length rows.ordinals.now }
        ensures made { AreMade self.now rows.entry.ordinals.now pieces.new 0 column }
        ensures steps { steps.new ≤ steps.old + length rows.entry.ordinals.now * asked_for self.now column }
    {
        let columns = self.rows.plan().columns(self.table);
        match &columns[column].kind {
            ReadyKind::After(_) => {
                self.put_dates(column, rows, behind, numbers, values, pieces, steps)
            }
            ReadyKind::Sum { of } => {
                self.put_totals(
                    column,
                    of.as_slice(),
                    Join::Sum,
                    rows,
                    live,
                    behind,
                    numbers,
                    values,
                    pieces,
                    steps,
                )
            }
            ReadyKind::Product { of } => {
                self.put_totals(
                    column,
                    of.as_slice(),
                    Join::Product,
                    rows,
                    live,
                    behind,
                    numbers,
                    values,
                    pieces,
                    steps,
                )
            }
            _ => self.put_drawn(column, rows, numbers, pieces),
        }
    }

    /// Makes the keys of the rows.
    fn put_own_keys(
        &self,
        column: usize,
        rows: RunRows<'_>,
        keys: &[u64],
        behind: u8,
        pieces: &mut [Piece],
    )
        requires column { column < length (layout_for self.now).columns }
        requires key { (column_at (layout_for self.now).columns column).kind ≡ key_kind }
        requires short { has_short_keys self.now.plan self.now.table ≡ true }
        requires behind { behind ≡ behind_of self.now.plan self.now.table column }
        requires rows { AreRowsOf self.now rows }
        requires keys { AreKeys self.now rows.ordinals.now keys.now }
        requires pieces { length pieces.old ≡ length rows.ordinals.now }
        ensures { AreMade self.now rows.entry.ordinals.now pieces.new 0 column }
    {
        self.digits.fill(keys, behind, pieces);
    }

    /// Makes the fields of a column of units or drawn values.
    fn put_drawn(
        &self,
        column: usize,
        rows: RunRows<'_>,
        numbers: &mut RunNumbers,
        pieces: &mut [Piece],
    )
        requires column { column < length (layout_for self.now).columns }
        requires short { (column_of self.now.plan self.now.table column).short ≡ true }
        requires rows { AreRowsOf self.now rows }
        requires pieces { length pieces.old ≡ length rows.ordinals.now }
        ensures { AreMade self.now rows.entry.ordinals.now pieces.new 0 column }
    {
        let columns = self.lines.columns();
        let plan = self.rows.plan();
        columns[column].fill(plan, self.digits, rows, numbers, pieces);
    }

    /// Makes the keys of the rows' parents by the reference in the column at a place. A reference that has become null gives a
    /// null.
    fn put_references<L: Ledger>(
        &self,
        column: usize,
        reference: &ReadyReference,
        rows: RunRows<'_>,
        parents: &mut Parents<'_>,
        parent_keys: &mut [u64],
        live: &mut [bool],
        behind: u8,
        pieces: &mut [Piece],
        steps: &mut Steps<L>,
    )
        requires reference { IsReferenceOf self.now.plan self.now.table column reference.now }
        requires short { has_short_keys self.now.plan reference.now.parent ≡ true }
        requires behind { behind ≡ behind_of self.now.plan self.now.table column }
        requires rows { AreRowsOf self.now rows }
        requires known { AreKnown self.now rows.ordinals.now parents.old }
        requires parent_keys { length parent_keys.old ≡ MOST_ROWS }
        requires live { length live.old ≡ length rows.ordinals.now }
        requires pieces { length pieces.old ≡ length rows.ordinals.now }
        ensures made { AreMade self.now rows.entry.ordinals.now pieces.new 0 column }
        ensures known { AreKnown self.now rows.entry.ordinals.now parents.new }
        ensures steps { steps.new ≤ steps.old + length rows.entry.ordinals.now * (held_cost (layout_of self.now.plan).tables (reference_by column reference.now) + one_if (table_of self.now.plan reference.now.parent).key.scramble) }
    {
        self.find_parents(column, reference, rows, parents, steps);
        let keys = &mut parent_keys[..rows.ordinals.len()];
        let (ordinals, births) = (parents.ordinals(), parents.births());
        self.rows
            .put_keys(reference.parent, ordinals, births, keys, steps);
        self.digits.fill(keys, behind, pieces);
        if !reference.nulls {
            return;
        }
        self.rows
            .put_lives(reference.parent, self.unit, ordinals, births, live, steps);
        put_nulls(live, null_piece(behind), pieces);
    }
}

/// Replaces each piece whose flag is false with the piece `null`.
pub(crate) fn put_nulls(held: &[bool], null: Piece, pieces: &mut [Piece])
    requires { length held.now ≡ length pieces.old }
    ensures { (i : ℕ) → i < length pieces.old → piece_text_at pieces.new i ≡ (if get_or held.now i false then piece_text_at pieces.old i else piece_text null) }
{
    for (i, piece) in pieces.iter_mut().enumerate() {
        if !held[i] {
            *piece = null;
        }
    }
}
