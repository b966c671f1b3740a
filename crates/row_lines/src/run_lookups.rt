//! What a run's rows look up in their parents, as pieces.

ghost use Rattle.std.specs.Prelude.{◌≡◌, ℕ, ◌<◌, ◌≤◌, ◌+◌, ◌*◌, [], ◌∷◌, ◌++◌, get_or, length, true};
ghost use Rattle.line_pages.specs.Rows.{piece_text_at};
ghost use Rattle.draw_values.specs.Runs.{run_column};
ghost use Rattle.draw_values.specs.Values.{size_at};
ghost use Rattle.schema_facts.specs.Layout.{layout_of};
ghost use Rattle.schema_plan.specs.Limits.{IsStillColumn};
ghost use Rattle.life_intervals.specs.Generator.{table_of};
ghost use Rattle.life_intervals.specs.Runs.{IsRun};
ghost use Rattle.row_lines.specs.Lookups.{IsLookupOf, text_held};
ghost use Rattle.row_lines.specs.RunFields.{AreMade, AreRowsOf, asked_for, column_lines};
ghost use Rattle.row_lines.specs.RunParents.{AreKnown};
ghost use Rattle.row_lines.specs.TableLines.{is_short_at};

use crate::run_parents::Parents;
use crate::runs::RunLines;
use draw_values::{RunColumn, RunNumbers, RunRows};
use line_pages::Piece;
use schema_plan::{ReadyKind, ReadyLookup};
use std::sync::ledger::Ledger;
use step_count::Steps;

impl<'a> RunLines<'a> {
    /// Makes what the rows look up in their parents, by the lookup in the column at a place. A field that is drawn to be null gives
    /// a null.
    pub(crate) fn put_lookups<L: Ledger>(
        &self,
        column: usize,
        lookup: &ReadyLookup,
        rows: RunRows<'_>,
        parents: &mut Parents<'_>,
        numbers: &mut RunNumbers,
        pieces: &mut [Piece],
        steps: &mut Steps<L>,
    )
        requires lookup { IsLookupOf (column_lines self.now) column lookup.now }
        requires short { is_short_at self.now.plan self.now.table column ≡ true }
        requires rows { AreRowsOf self.now rows }
        requires known { AreKnown self.now rows.ordinals.now parents.old }
        requires pieces { length pieces.old ≡ length rows.ordinals.now }
        ensures made { AreMade self.now rows.entry.ordinals.now pieces.new 0 column }
        ensures known { AreKnown self.now rows.entry.ordinals.now parents.new }
        ensures steps { steps.new ≤ steps.old + length rows.entry.ordinals.now * asked_for self.now column }
    {
        let plan = self.rows.plan();
        let columns = plan.columns(self.table);
        let ReadyKind::Reference(reference) = &columns[lookup.via as usize].kind else {
            return; // it is one
        };
        let shown = self.lines.shown();
        let Some(shown) = &shown[column] else {
            return; // it is kept
        };
        self.find_parents(lookup.via as usize, reference, rows, parents, steps);
        let (ordinals, births) = (parents.ordinals(), parents.births());
        self.put_shown(shown, ordinals, births, numbers, pieces);
        let own = self.lines.columns();
        own[column].null_out(plan, rows, numbers, pieces);
    }

    /// Makes what the rows of a table hold in a column that is prepared for runs. The column must not move, and all its fields must
    /// be short.
    fn put_shown(
        &self,
        shown: &RunColumn,
        ordinals: &[u64],
        births: &[u64],
        numbers: &mut RunNumbers,
        pieces: &mut [Piece],
    )
        requires table { shown.now.table < length self.now.plan.schema.tables }
        requires still { IsStillColumn (table_of self.now.plan shown.now.table) shown.now.column }
        requires shown { shown.now ≡ run_column self.now.plan shown.now.table shown.now.column shown.now.behind }
        requires short { shown.now.short ≡ true }
        requires few { length ordinals.now ≤ 256 }
        requires rows { IsRun self.now.plan shown.now.table self.now.unit ordinals.now births.now }
        requires pieces { length pieces.old ≡ length ordinals.now }
        ensures text { (i : ℕ) → i < length ordinals.now → piece_text_at pieces.new i ≡ text_held self.now.plan shown.now.table self.now.unit (get_or ordinals.now i 0) shown.now.column ++ shown.now.behind ∷ [] }
        ensures size { (i : ℕ) → i < length ordinals.now → length (text_held self.now.plan shown.now.table self.now.unit (get_or ordinals.now i 0) shown.now.column) ≤ size_at (layout_of self.now.plan) shown.now.table shown.now.column }
    {
        let rows = RunRows {
            ordinals,
            births,
            changes: births,
        };
        shown.fill(self.rows.plan(), self.digits, rows, numbers, pieces);
    }
}
