//! A column of a plan's table that is prepared for runs. It makes its fields for many rows at once, as pieces.

ghost use Rattle.std.specs.Prelude.{◌≡◌, ℕ, ◌<◌, ◌≤◌, ◌^◌, IfOk, if◌then◌else◌, length, map, slice_index_or, [], true};
ghost use Rattle.philox_seeds.specs.SeedTree.{table_seed as table_seed_of};
ghost use Rattle.line_pages.specs.Pieces.{piece_text};
ghost use Rattle.row_text.specs.Fields.{field_text};
ghost use Rattle.schema_facts.specs.Layout.{layout_of, table_at};
ghost use Rattle.draw_values.specs.Runs.{AreRunRows, IsRunColumn, chooser_seed, is_null_in, is_short_alone, null_text, ready_at, run_column, run_row, run_field};
ghost use Rattle.draw_values.specs.ReadyValues.{chooser_of};
ghost use Rattle.draw_values.specs.Values.{size_at, value_at};

use crate::column_seeds::ColumnSeeds;
use crate::drawn_column::{DrawnColumn, SEED_ROOM};
use crate::fields::is_null;
use crate::runs::{RunNumbers, RunRows};
use crate::values::RowAt;
use line_pages::{Digits, Piece};
use out_of_memory::Memory;
use philox_seeds::{column_seed, table_seed};
use schema_plan::{Plan, ReadyKind};
use std::alloc::Global;
use std::marker::Model;

/// A column of a plan's table that is prepared for runs: its place, the seeds of the column by which a case goes, and what is prepared of
/// the column by itself. A contract sees all this.
pub struct RunColumn {
    pub(crate) table: u32,
    pub(crate) column: u32,
    pub(crate) chooser: Option<ColumnSeeds>,
    pub(crate) drawn: DrawnColumn,
}

impl Drop for RunColumn {
    fn drop(self) {
        let RunColumn {
            table: _,
            column: _,
            chooser,
            drawn,
        } = self;
        drop(chooser);
        drop(drawn);
    }
}

impl Model for RunColumn {
    ghost use Rattle.draw_values.specs.Runs.{RunColumnOf};

    ghost Value = { RunColumnOf };

    ghost view = { λ c. record { seed = c.drawn.seed; chooser = c.chooser; table = c.table; column = c.column; behind = c.drawn.behind; short = c.drawn.short; itemized = c.drawn.itemized; texts = c.drawn.texts } };
}

impl RunColumn {
    /// Prepares the column at a place of a table. `behind` is the byte after each field. The column's seeds at the units 0 to
    /// `last` are kept, up to a limit. Makes nothing at `Memory`.
    pub fn new(
        alloc: Global,
        plan: &Plan,
        table: u32,
        column: u32,
        behind: u8,
        last: u64,
    ) -> Result<RunColumn, Memory>
        requires table { table < length plan.now.schema.tables }
        requires column { column < length (table_at (layout_of plan.now).tables table).columns }
        ensures { IfOk result (λ made. made ≡ run_column plan.now table column behind) }
    {
        let columns = plan.columns(table);
        let own = &columns[column as usize];
        let chooser = chooser_seeds(alloc, plan, table, &own.kind, last)?;
        let seed = column_seed(table_seed(plan.seed(), table), column);
        let drawn = DrawnColumn::new(alloc, own, seed, behind, last)?;
        Ok(RunColumn {
            table,
            column,
            chooser,
            drawn,
        })
    }

    /// Whether each field, also a null, makes a piece together with the byte after it. Then `fill` can be called.
    #[inline(always)]
    pub fn is_short(&self) -> bool
        ensures { result ≡ self.now.short }
    {
        self.drawn.is_short()
    }

    /// Returns the column's seeds.
    #[inline(always)]
    pub fn seeds(&self) -> &ColumnSeeds
        ensures { result.now ≡ self.now.seed }
    {
        self.drawn.seeds()
    }

    /// Makes the fields of a run's rows, each with the byte after it.
    pub fn fill(
        &self,
        plan: &Plan,
        digits: &Digits,
        rows: RunRows<'_>,
        numbers: &mut RunNumbers,
        pieces: &mut [Piece],
    )
        requires column { IsRunColumn plan.now self.now }
        requires short { self.now.short ≡ true }
        requires rows { AreRunRows (layout_of plan.now).units (length pieces.old) rows }
        ensures text { (i : ℕ) → i < length pieces.old → slice_index_or (map piece_text pieces.new) i [] ≡ run_field plan.now self.now rows.entry i }
        ensures size { (i : ℕ) → i < length pieces.old → length (field_text (layout_of plan.now).delimiter (value_at (layout_of plan.now) self.now.table self.now.column (run_row rows.entry i))) ≤ size_at (layout_of plan.now) self.now.table self.now.column }
    {
        let columns = plan.columns(self.table);
        match &columns[self.column as usize].kind {
            ReadyKind::Case { .. } => self.fill_cases(plan, digits, rows, numbers, pieces),
            _ => self.fill_alone(plan, digits, rows, numbers, pieces),
        }
    }

    /// Makes the fields of a run's rows in a column that depends on no other column.
    fn fill_alone(
        &self,
        plan: &Plan,
        digits: &Digits,
        rows: RunRows<'_>,
        numbers: &mut RunNumbers,
        pieces: &mut [Piece],
    )
        requires column { IsRunColumn plan.now self.now }
        requires short { is_short_alone (ready_at plan.now self.now.table self.now.column).kind ≡ true }
        requires rows { AreRunRows (layout_of plan.now).units (length pieces.old) rows }
        ensures text { (i : ℕ) → i < length pieces.old → slice_index_or (map piece_text pieces.new) i [] ≡ run_field plan.now self.now rows.entry i }
        ensures size { (i : ℕ) → i < length pieces.old → length (field_text (layout_of plan.now).delimiter (value_at (layout_of plan.now) self.now.table self.now.column (run_row rows.entry i))) ≤ size_at (layout_of plan.now) self.now.table self.now.column }
    {
        let columns = plan.columns(self.table);
        let own = &columns[self.column as usize];
        self.drawn.fill(digits, own, rows, numbers, pieces);
    }

    /// Replaces a row's piece with a null and the byte after it, if the row's field is drawn to be null in the column. Leaves the
    /// other pieces. The column can be of any kind.
    pub fn null_out(
        &self,
        plan: &Plan,
        rows: RunRows<'_>,
        numbers: &mut RunNumbers,
        pieces: &mut [Piece],
    )
        requires column { IsRunColumn plan.now self.now }
        requires rows { AreRunRows (layout_of plan.now).units (length pieces.old) rows }
        ensures { (i : ℕ) → i < length pieces.old → slice_index_or (map piece_text pieces.new) i []
            ≡ (if is_null_in plan.now self.now (run_row rows.entry i) then null_text self.now else slice_index_or (map piece_text pieces.old) i []) }
    {
        let columns = plan.columns(self.table);
        let own = &columns[self.column as usize];
        self.drawn.null_out(own, rows, numbers, pieces);
    }

    /// Whether a row's field is drawn to be null in the column. The column can be of any kind.
    #[inline(always)]
    pub fn is_null(&self, plan: &Plan, at: RowAt) -> bool
        requires column { IsRunColumn plan.now self.now }
        ensures { result ≡ is_null_in plan.now self.now at }
    {
        let columns = plan.columns(self.table);
        let own = &columns[self.column as usize];
        let unit = if own.changes { at.changed } else { at.born };
        is_null(own.null, self.seeds().at(unit), at.ordinal)
    }
}

/// Returns the seeds of a case's pick column, kept for the units 0 to `last` up to a limit. Returns None for a column that depends
/// on no other.
fn chooser_seeds(
    alloc: Global,
    plan: &Plan,
    table: u32,
    kind: &ReadyKind,
    last: u64,
) -> Result<Option<ColumnSeeds>, Memory>
    requires { chooser_of 0 kind.now < 2 ^ 32 }
    ensures { IfOk result (λ seeds. seeds ≡ chooser_seed (table_seed_of (layout_of plan.now).seed table) kind.now) }
{
    let ReadyKind::Case { on, .. } = kind else {
        return Ok(None);
    };
    let seeds = ColumnSeeds::new(alloc, plan, table, *on as u32, last, SEED_ROOM)?;
    Ok(Some(seeds))
}
