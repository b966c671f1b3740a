//! The columns of the parent in lines side by side, as pieces.

ghost use Rattle.std.specs.Prelude.{◌≡◌, ◌<◌, ℕ, IfOk, length, true};
ghost use Rattle.draw_values.specs.Runs.{AreOfLength, run_row};
ghost use Rattle.schema_plan.specs.declared.ready.ReadyKind.{ReadyKind};
ghost use Rattle.row_lines.specs.TableLines.{is_short_shown};
ghost use Rattle.detail_plan.specs.Kept.{KeepsRules};
ghost use Rattle.detail_lines.specs.LineRuns.{AreDays, AreFields, AreLines};
ghost use Rattle.detail_lines.specs.Made.{AreMany, IsParentAt, own_over, ready_over, row_of, shown_column, shown_columns, told_at};

use crate::detail_lines::{DetailLines, ParentAt, byte_behind};
use crate::line_run::{LineRun, MOST_AT_ONCE};
use crate::parent_row::ParentRows;
use detail_plan::DetailPlan;
use draw_values::{RunColumn, RunNumbers, RunRows, fill_kept};
use line_pages::Piece;
use out_of_memory::Memory;
use schema_plan::{Plan, ReadyKind, ReadyLookup};
use std::alloc::Global;

impl<'a> ParentRows<'a> {
    /// Returns the rows as rows whose fields are drawn.
    pub(crate) fn drawn_rows(&self, many: usize) -> RunRows<'a>
        requires { AreMany many self.now }
        ensures lengths { AreOfLength many result }
        ensures rows { (k : ℕ) → k < many → run_row result k ≡ told_at (row_of self.now k) }
    {
        let _ = many;
        RunRows {
            ordinals: self.ordinals,
            births: self.births,
            changes: self.changes,
        }
    }
}

impl<'a> DetailLines<'a> {
    /// Makes the fields of lines in a column of the parent, once for each row of the parent. Returns false if a field can be too long for a
    /// piece.
    pub(crate) fn put_shown(
        &self,
        column: usize,
        lookup: &ReadyLookup,
        at: &ParentAt<'_>,
        run: &LineRun<'_>,
        count: usize,
        drawn: &mut RunNumbers,
        parents: &mut [Piece],
        pieces: &mut [Piece],
    ) -> bool
        requires column { column < own_over self.now }
        requires lookup { (ready_over self.now column).kind ≡ ReadyKind.Lookup lookup.now }
        requires at { IsParentAt self.now at.now }
        requires lines { AreLines self.now at.now.unit count run.now }
        requires parents { length parents.old ≡ MOST_AT_ONCE }
        requires pieces { length pieces.old ≡ count }
        ensures { result ≡ true → AreFields self.now at.now.unit count run.now pieces.new 0 column }
    {
        let _ = at;
        let _ = lookup;
        let columns = self.ready();
        let prepared = self.prepared();
        let shown = self.shown();
        let Some(shown) = &shown[column] else {
            return false;
        };
        if !shown.is_short() {
            return false;
        }
        let many = run.parents.ordinals.len();
        let of_parents = &mut parents[..many];
        let rows = run.parents.drawn_rows(many);
        shown.fill(self.plan(), self.digits(), rows, drawn, of_parents);
        fill_kept(of_parents, run.places, pieces);
        prepared[column].null_out(&columns[column], run.drawn_rows(count), drawn, pieces);
        true
    }

    /// Finds the days that lines show in a column of the parent. Returns false if the parent's field can be null, or if its day isn't that of a
    /// unit or drawn. If a field of the column itself is null, its day is the one that it would show.
    pub(crate) fn put_shown_days(
        &self,
        column: usize,
        lookup: &ReadyLookup,
        at: &ParentAt<'_>,
        run: &LineRun<'_>,
        count: usize,
        drawn: &mut RunNumbers,
        days: &mut [i64],
    ) -> bool
        requires column { column < own_over self.now }
        requires lookup { (ready_over self.now column).kind ≡ ReadyKind.Lookup lookup.now }
        requires at { IsParentAt self.now at.now }
        requires lines { AreLines self.now at.now.unit count run.now }
        requires days { length days.old ≡ count }
        ensures { result ≡ true → AreDays self.now at.now.unit count run.now days.new column }
    {
        let _ = at;
        let _keeps = self.ready(); // a column of the parent is one of its table
        let plan = self.plan();
        let held = plan.columns(lookup.parent);
        if held[lookup.column as usize].null > 0 {
            return false;
        }
        let shown = self.shown();
        let Some(shown) = &shown[column] else {
            return false;
        };
        shown.put_days(plan, run.rows.drawn_rows(count), drawn, days)
    }
}

/// Prepares for runs the columns of the parent that a detail table shows. A column of any other kind has None.
pub(crate) fn shown_columns(
    alloc: Global,
    plan: &Plan,
    detail: &DetailPlan,
) -> Result<Vec<Option<RunColumn>>, Memory>
    requires { KeepsRules plan.now detail.now }
    ensures { IfOk result (λ made. made.items ≡ shown_columns (record { plan = plan.now; kept = detail.now })) }
{
    let many = detail.detail().columns.len();
    let mut made = Vec::with_capacity(alloc, many)?;
    for column in 0..many {
        made.push(shown_column(alloc, plan, detail, column)?)?;
    }
    Ok(made)
}

/// Prepares for runs the column of the parent that the column at a place shows. Returns None if it is of any other kind.
fn shown_column(
    alloc: Global,
    plan: &Plan,
    detail: &DetailPlan,
    column: usize,
) -> Result<Option<RunColumn>, Memory>
    requires keeps { KeepsRules plan.now detail.now }
    requires column { column < length detail.now.detail.columns }
    ensures { IfOk result (λ made. made ≡ shown_column (record { plan = plan.now; kept = detail.now }) column) }
{
    let _limits = plan.schema(); // no table has more than 64 columns
    let many = detail.detail().columns.len();
    let columns = detail.columns();
    let ReadyKind::Lookup(lookup) = &columns[column].kind else {
        return Ok(None);
    };
    let behind = byte_behind(plan.delimiter(), many, column);
    let (parent, shown) = (lookup.parent, lookup.column as u32);
    let made = RunColumn::new(alloc, plan, parent, shown, behind, plan.units())?;
    Ok(Some(made))
}

/// Whether a column of the parent is shown of which each field makes a piece.
pub(crate) fn is_short_shown(shown: &Option<RunColumn>) -> bool
    ensures { result ≡ is_short_shown shown.now }
{
    match shown {
        Some(shown) => shown.is_short(),
        None => false,
    }
}
