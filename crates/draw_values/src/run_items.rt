//! The fields of a column over a run, if they are of several items.

ghost use Rattle.std.specs.Prelude.{◌≡◌, ℕ, ◌<◌, ◌≤◌, ◌+◌, ◌++◌, IfSome, slice_index, length, max, slice_index_or, true};
ghost use Rattle.philox_seeds.specs.SeedTree.{draw as draw_of};
ghost use Rattle.row_text.specs.Fields.{field_text};
ghost use Rattle.schema_facts.specs.Layout.{layout_of};
ghost use Rattle.draw_values.specs.Items.{field_behind, item_count, itemized_by, itemized_field, items_or_null, kind_count, kind_items};
ghost use Rattle.draw_values.specs.ReadyValues.{IsReady, ready_kind_size, ready_size};
ghost use Rattle.draw_values.specs.Runs.{AreOfLength, AreRunRows, IsReadyDrawn, IsRunColumn, is_itemized, is_itemized_leaf, items_of, kept_texts, run_row, run_seed, with_behind};
ghost use Rattle.draw_values.specs.Values.{size_at, value_at};

use crate::drawn_column::DrawnColumn;
use crate::fields::NULL_DRAW;
use crate::items::{ItemizedField, put_counts, put_items, put_null_counts};
use crate::leaves::FIRST_DRAW;
use crate::run_column::RunColumn;
use crate::run_loops::put_draws;
use crate::runs::{RunNumbers, RunRows};
use crate::values::RowAt;
use line_pages::{PageBuf, Piece};
use row_text::put_null;
use schema_plan::{Plan, ReadyColumn, ReadyKind, ReadyLeaf};

impl RunColumn {
    /// Whether each field is null or of several items, each of which makes a piece. Then `itemize` and `put_itemized` can be
    /// called.
    #[inline(always)]
    pub fn is_itemized(&self) -> bool
        ensures { result ≡ self.now.itemized }
    {
        self.drawn.is_itemized()
    }

    /// Draws what the fields of a run's rows need before their items.
    pub fn itemize(
        &self,
        plan: &Plan,
        rows: RunRows<'_>,
        numbers: &mut RunNumbers,
        fields: &mut [ItemizedField],
    )
        requires column { IsRunColumn plan.now self.now }
        requires itemized { self.now.itemized ≡ true }
        requires rows { AreRunRows (layout_of plan.now).units (length fields.old) rows }
        ensures { (i : ℕ) (d : ItemizedField) → i < length fields.old → slice_index_or fields.new i d ≡ itemized_field plan.now self.now (run_row rows.entry i) }
    {
        let columns = plan.columns(self.table);
        let own = &columns[self.column as usize];
        self.drawn.itemize(own, rows, numbers, fields);
    }

    /// Appends a row's field with the byte after it. `field` is what was drawn for it before its items. The greatest size of the
    /// column's fields plus one byte must be free.
    pub fn put_itemized(&self, plan: &Plan, field: ItemizedField, page: &mut PageBuf)
        requires column { IsRunColumn plan.now self.now }
        requires itemized { self.now.itemized ≡ true }
        requires field { (at : RowAt) × (field ≡ itemized_field plan.now self.now at) }
        requires room { length page.old.text + (size_at (layout_of plan.now) self.now.table self.now.column + 1) ≤ page.old.room }
        ensures text { (at : RowAt) → field ≡ itemized_field plan.now self.now at → page.new ≡ record page.old { text = page.old.text ++ field_behind plan.now self.now at } }
        ensures size { (at : RowAt) → field ≡ itemized_field plan.now self.now at → length (field_text (layout_of plan.now).delimiter (value_at (layout_of plan.now) self.now.table self.now.column at)) ≤ size_at (layout_of plan.now) self.now.table self.now.column }
    {
        let columns = plan.columns(self.table);
        let own = &columns[self.column as usize];
        self.drawn.put_itemized(own, field, page);
    }
}

impl DrawnColumn {
    /// Draws what the fields of a run's rows in the column need before their items. They must be of several items.
    pub fn itemize(
        &self,
        own: &ReadyColumn,
        rows: RunRows<'_>,
        numbers: &mut RunNumbers,
        fields: &mut [ItemizedField],
    )
        requires ready { IsReadyDrawn own.now.kind }
        requires itemized { is_itemized own.now.kind ≡ true }
        requires few { length fields.old ≤ 256 }
        requires lengths { AreOfLength (length fields.old) rows }
        ensures { (i : ℕ) (d : ItemizedField) → i < length fields.old → slice_index_or fields.new i d ≡ itemized_by own.now (run_seed self.now.seed own.now.changes rows.entry i) }
    {
        let count = fields.len();
        let all_seeds = &mut numbers.seeds[..];
        let all_draws = &mut numbers.draws[..];
        let seeds = &mut all_seeds[..count];
        let draws = &mut all_draws[..count];
        self.put_seeds(own.changes, rows, seeds);
        itemize_seeds(own, seeds, draws, fields);
    }

    /// Appends a row's field in the column with the byte after it. `field` is what was drawn for it before its items. The greatest size of
    /// the column's fields, at least 2, plus one byte must be free.
    pub fn put_itemized(&self, own: &ReadyColumn, field: ItemizedField, page: &mut PageBuf)
        requires ready { IsReadyDrawn own.now.kind }
        requires itemized { is_itemized own.now.kind ≡ true }
        requires kept { self.now.texts ≡ kept_texts self.now.behind own.now.kind }
        requires count { IfSome field.count (λ count. (number : ℕ) × (count ≡ kind_count own.now.kind number)) }
        requires room { length page.old.text + (max 2 (ready_kind_size own.now.kind) + 1) ≤ page.old.room }
        ensures text { page.new ≡ record page.old { text = page.old.text ++ with_behind self.now.behind (kind_items own.now.kind (draw_of field.seed) field.count) } }
        ensures size { length (kind_items own.now.kind (draw_of field.seed) field.count) ≤ max 2 (ready_kind_size own.now.kind) }
    {
        match &own.kind {
            ReadyKind::Drawn(leaf) => self.put_drawn_items(leaf, field, page),
            _ => unreachable!(),
        }
    }

    /// Appends a row's field with the byte after it, by the leaf from which it is drawn.
    #[inline(always)]
    fn put_drawn_items(&self, leaf: &ReadyLeaf, field: ItemizedField, page: &mut PageBuf)
        requires ready { IsReady leaf.now }
        requires itemized { is_itemized_leaf leaf.now ≡ true }
        requires kept { self.now.texts ≡ items_of leaf.now }
        requires count { IfSome field.count (λ count. (number : ℕ) × (count ≡ item_count leaf.now number)) }
        requires room { length page.old.text + (max 2 (ready_size leaf.now) + 1) ≤ page.old.room }
        ensures text { page.new ≡ record page.old { text = page.old.text ++ with_behind self.now.behind (items_or_null leaf.now (draw_of field.seed) field.count) } }
        ensures size { length (items_or_null leaf.now (draw_of field.seed) field.count) ≤ max 2 (ready_size leaf.now) }
    {
        match field.count {
            Some(count) => put_items(leaf, self.kept.as_slice(), count, field.seed, page),
            None => put_null(page),
        }
        page.put_piece(&Piece::of_byte(self.behind));
    }
}

/// Draws what the fields of rows with these seeds need before their items, in a ready column.
#[inline(always)]
fn itemize_seeds(own: &ReadyColumn, seeds: &[u64], draws: &mut [u64], fields: &mut [ItemizedField])
    requires ready { IsReadyDrawn own.now.kind }
    requires itemized { is_itemized own.now.kind ≡ true }
    requires seeds { length seeds.now ≡ length fields.old }
    requires draws { length draws.old ≡ length fields.old }
    ensures { (i : ℕ) (d : ItemizedField) → i < length fields.old → slice_index_or fields.new i d ≡ itemized_by own.now (slice_index seeds.now i) }
{
    put_draws(FIRST_DRAW, seeds, draws);
    match &own.kind {
        ReadyKind::Drawn(ReadyLeaf::Chars { lo, lengths, .. }) => {
            put_counts(*lo, lengths, seeds, draws, fields);
        }
        ReadyKind::Drawn(ReadyLeaf::Words { lo, lengths, .. }) => {
            put_counts(*lo, lengths, seeds, draws, fields);
        }
        _ => unreachable!(),
    }
    if own.null > 0 {
        put_draws(NULL_DRAW, seeds, draws);
        put_null_counts(own.null, draws, fields);
    }
}
