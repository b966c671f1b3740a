//! The fields of a column of cases over a run, if all branches are short.

ghost use Rattle.std.specs.Prelude.{◌≡◌, ℕ, ◌<◌, ◌≤◌, [], All, Some, if◌then◌else◌, length, map, slice_index, slice_index_or, true};
ghost use Rattle.std.specs.List.{list_all};
ghost use Rattle.philox_seeds.specs.SeedTree.{draw as draw_of};
ghost use Rattle.line_pages.specs.Pieces.{piece_text};
ghost use Rattle.row_text.specs.Fields.{field_text};
ghost use Rattle.schema_facts.specs.Layout.{layout_of};
ghost use Rattle.draw_values.specs.Cases.{branch_text, case_text, entry_drawn};
ghost use Rattle.draw_values.specs.ReadyValues.{IsReady, IsReadyPick, entry_count, ready_branch};
ghost use Rattle.draw_values.specs.Runs.{AreOfLength, AreRunRows, IsRunColumn, is_case, is_short_leaf, is_short_text, null_text, ready_at, run_field, run_row, run_seed, text_by, with_behind};
ghost use Rattle.draw_values.specs.Values.{is_null, size_at, value_at};

use crate::column_seeds::ColumnSeeds;
use crate::fields::NULL_DRAW;
use crate::kept::text_piece;
use crate::leaves::FIRST_DRAW;
use crate::run_column::RunColumn;
use crate::run_loops::{choose_groups, put_draws, put_nulls, put_run_seeds};
use crate::run_pieces::fill_leaf;
use crate::runs::{RunNumbers, RunRows};
use line_pages::{Digits, Piece};
use schema_plan::{Plan, ReadyColumn, ReadyKind, ReadyLeaf};

impl RunColumn {
    /// Makes the fields of a run's rows in a column of cases, each with the byte after it.
    pub(crate) fn fill_cases(
        &self,
        plan: &Plan,
        digits: &Digits,
        rows: RunRows<'_>,
        numbers: &mut RunNumbers,
        pieces: &mut [Piece],
    )
        requires column { IsRunColumn plan.now self.now }
        requires short { self.now.short ≡ true }
        requires case { is_case (ready_at plan.now self.now.table self.now.column).kind ≡ true }
        requires rows { AreRunRows (layout_of plan.now).units (length pieces.old) rows }
        ensures text { (i : ℕ) → i < length pieces.old → slice_index_or (map piece_text pieces.new) i [] ≡ run_field plan.now self.now rows.entry i }
        ensures size { (i : ℕ) → i < length pieces.old → length (field_text (layout_of plan.now).delimiter (value_at (layout_of plan.now) self.now.table self.now.column (run_row rows.entry i))) ≤ size_at (layout_of plan.now) self.now.table self.now.column }
    {
        let columns = plan.columns(self.table);
        let own = &columns[self.column as usize];
        let (ReadyKind::Case { on, branches }, Some(chooser)) = (&own.kind, &self.chooser) else {
            unreachable!()
        };
        let pick = &columns[*on as usize];
        let branches = branches.as_slice();
        self.fill_branches(digits, own, branches, pick, chooser, rows, numbers, pieces);
        self.null_picks(pick, chooser, rows, numbers, pieces);
        self.drawn.null_out(own, rows, numbers, pieces);
    }

    /// Makes the values of the branches that the rows' fields in the pick column select, also for null fields.
    #[inline(always)]
    fn fill_branches(
        &self,
        digits: &Digits,
        own: &ReadyColumn,
        branches: &[ReadyLeaf],
        pick: &ReadyColumn,
        chooser: &ColumnSeeds,
        rows: RunRows<'_>,
        numbers: &mut RunNumbers,
        pieces: &mut [Piece],
    )
        requires ready { All IsReady branches.now }
        requires short { list_all is_short_leaf branches.now ≡ true }
        requires pick { IsReadyPick pick.now.kind }
        requires each { entry_count pick.now.kind ≡ length branches.now }
        requires few { length pieces.old ≤ 256 }
        requires lengths { AreOfLength (length pieces.old) rows }
        ensures text { (i : ℕ) → i < length pieces.old → slice_index_or (map piece_text pieces.new) i []
            ≡ branch_text self.now pick.now.kind branches.now (draw_of (run_seed self.now.seed own.now.changes rows.entry i)) (draw_of (run_seed chooser.now pick.now.changes rows.entry i)) }
        ensures within { (i : ℕ) → i < length pieces.old → entry_drawn pick.now.kind (draw_of (run_seed chooser.now pick.now.changes rows.entry i)) < length branches.now }
    {
        let count = pieces.len();
        let all_seeds = &mut numbers.seeds[..];
        let all_draws = &mut numbers.draws[..];
        let all_entries = &mut numbers.entries[..];
        let seeds = &mut all_seeds[..count];
        let draws = &mut all_draws[..count];
        let entries = &mut all_entries[..count];
        put_run_seeds(chooser, pick.changes, rows, seeds);
        put_entries(pick, seeds, entries);
        self.drawn
            .put_run_draws(FIRST_DRAW, own.changes, rows, seeds, draws);
        put_branches(digits, branches, entries, draws, self.drawn.behind, pieces);
    }

    /// Replaces a row's piece with a null and the byte after it, if the row's field in the pick column is null. Leaves the other
    /// pieces.
    fn null_picks(
        &self,
        pick: &ReadyColumn,
        chooser: &ColumnSeeds,
        rows: RunRows<'_>,
        numbers: &mut RunNumbers,
        pieces: &mut [Piece],
    )
        requires few { length pieces.old ≤ 256 }
        requires lengths { AreOfLength (length pieces.old) rows }
        ensures { (i : ℕ) → i < length pieces.old → slice_index_or (map piece_text pieces.new) i []
            ≡ (if is_null pick.now.null (draw_of (run_seed chooser.now pick.now.changes rows.entry i)) then null_text self.now else slice_index_or (map piece_text pieces.old) i []) }
    {
        if pick.null == 0 {
            return;
        }
        let count = pieces.len();
        let all_seeds = &mut numbers.seeds[..];
        let all_draws = &mut numbers.draws[..];
        let seeds = &mut all_seeds[..count];
        let draws = &mut all_draws[..count];
        put_run_seeds(chooser, pick.changes, rows, seeds);
        put_draws(NULL_DRAW, seeds, draws);
        put_nulls(
            pick.null,
            draws,
            text_piece(b"\\N", self.drawn.behind),
            pieces,
        );
    }
}

/// Finds the numbers of the entries that the fields of rows with these seeds select in a pick column.
#[inline(always)]
fn put_entries(pick: &ReadyColumn, seeds: &[u64], entries: &mut [u64])
    requires pick { IsReadyPick pick.now.kind }
    requires seeds { length seeds.now ≡ length entries.old }
    ensures entries { (i : ℕ) → i < length entries.old → slice_index entries.new i ≡ entry_drawn pick.now.kind (draw_of (slice_index seeds.now i)) }
    ensures within { (i : ℕ) → i < length entries.old → slice_index entries.new i < entry_count pick.now.kind }
{
    put_draws(FIRST_DRAW, seeds, entries);
    match &pick.kind {
        ReadyKind::Drawn(ReadyLeaf::Pick { weights, total, .. }) => {
            choose_groups(weights, total, entries);
        }
        _ => unreachable!(),
    }
}

/// Makes the values that draws give in the branches at these places.
#[inline(always)]
fn put_branches(
    digits: &Digits,
    branches: &[ReadyLeaf],
    places: &[u64],
    draws: &[u64],
    behind: u8,
    pieces: &mut [Piece],
)
    requires ready { All IsReady branches.now }
    requires short { list_all is_short_leaf branches.now ≡ true }
    requires within { (i : ℕ) → i < length places.now → slice_index places.now i < length branches.now }
    requires places { length places.now ≡ length pieces.old }
    requires draws { length draws.now ≡ length pieces.old }
    ensures { (i : ℕ) → i < length pieces.old → slice_index_or (map piece_text pieces.new) i []
        ≡ with_behind behind (text_by (ready_branch branches.now (slice_index places.now i)) (slice_index draws.now i)) }
{
    for (i, piece) in pieces.iter_mut().enumerate() {
        *piece = branch_piece(digits, &branches[places[i] as usize], draws[i], behind);
    }
}

/// Makes the value that a draw gives of a leaf whose texts are short.
#[inline(always)]
fn branch_piece(digits: &Digits, leaf: &ReadyLeaf, draw: u64, behind: u8) -> Piece
    requires ready { IsReady leaf.now }
    requires short { is_short_leaf leaf.now ≡ true }
    ensures { piece_text result ≡ with_behind behind (text_by leaf.now draw) }
{
    let mut draws = [draw];
    let mut pieces = [Piece::new()];
    fill_leaf(digits, leaf, None, &mut draws, behind, &mut pieces);
    pieces[0]
}
