//! Lines side by side, put together from pieces and from fields that give none.

ghost use Rattle.std.specs.Prelude.{◌≡◌, ◌<◌, ◌≤◌, ℕ, ◌+◌, ◌*◌, ◌^◌, ◌++◌, false, get_or, length, max, true};
ghost use Rattle.line_pages.specs.Pieces.{piece_text};
ghost use Rattle.draw_values.specs.Items.{itemized_by};
ghost use Rattle.draw_values.specs.ReadyValues.{IsReady, ready_size, row_draws};
ghost use Rattle.draw_values.specs.Runs.{is_itemized, with_behind};
ghost use Rattle.detail_plan.specs.Rules.{line_size};
ghost use Rattle.detail_lines.specs.LineRuns.{AreFields, AreHeads, AreItems, AreLines, IsDrawnAt, drawn_seed, line_of, run_text, text_or_null, text_over};
ghost use Rattle.detail_lines.specs.Made.{IsParentAt, behind_over, field_room, made_line, own_over, ready_over, size_over};

use crate::detail_lines::{DetailLines, ParentAt, byte_behind, draw_unit, is_drawn};
use crate::line_run::LineRun;
use draw_values::{ItemizedField, RunNumbers, is_null, put_leaf};
use line_pages::{PageBuf, Piece};
use philox_seeds::row_seed;
use row_text::put_null;
use schema_plan::{ReadyKind, ReadyLeaf};

impl<'a> DetailLines<'a> {
    /// Whether each column's fields are made as pieces, or are drawn.
    pub(crate) fn can_be_mixed(&self, made: &[bool]) -> bool
        requires { length made.now ≡ own_over self.now }
        ensures { result ≡ true → (column : ℕ) → column < own_over self.now → get_or made.now column false ≡ false → IsDrawnAt self.now column }
    {
        for column in 0..self.columns() {
            if !self.is_made_or_drawn(column, made[column]) {
                return false;
            }
        }
        true
    }

    /// Whether the fields of the column at a place are made, or are drawn.
    fn is_made_or_drawn(&self, column: usize, made: bool) -> bool
        requires { column < own_over self.now }
        ensures { result ≡ true → made ≡ false → IsDrawnAt self.now column }
    {
        let columns = self.ready();
        made || is_drawn(&columns[column].kind)
    }

    /// Draws what the fields of several items of lines need before their items, column by column. The columns stand as their pieces do.
    pub(crate) fn itemize_columns(
        &self,
        at: &ParentAt<'_>,
        run: &LineRun<'_>,
        count: usize,
        drawn: &mut RunNumbers,
        items: &mut [ItemizedField],
    )
        requires at { IsParentAt self.now at.now }
        requires lines { AreLines self.now at.now.unit count run.now }
        requires items { count * (own_over self.now + 2) ≤ length items.old }
        ensures { (column : ℕ) → column < own_over self.now → is_itemized (ready_over self.now column).kind ≡ true → AreItems self.now count run.now items.new ((column + 2) * count) column }
    {
        let _ = at;
        for column in 0..self.columns() {
            let start = (column + 2) * count;
            let fields = &mut items[start..start + count];
            self.itemize_column(column, at, run, count, drawn, fields);
        }
    }

    /// Draws what the fields of lines in the column at a place need before their items, if they are of several items.
    fn itemize_column(
        &self,
        column: usize,
        at: &ParentAt<'_>,
        run: &LineRun<'_>,
        count: usize,
        drawn: &mut RunNumbers,
        fields: &mut [ItemizedField],
    )
        requires column { column < own_over self.now }
        requires at { IsParentAt self.now at.now }
        requires lines { AreLines self.now at.now.unit count run.now }
        requires fields { length fields.old ≡ count }
        ensures { is_itemized (ready_over self.now column).kind ≡ true → AreItems self.now count run.now fields.new 0 column }
    {
        let _ = at;
        let columns = self.ready();
        let prepared = self.prepared();
        let own = &prepared[column];
        if own.is_itemized() {
            own.itemize(&columns[column], run.drawn_rows(count), drawn, fields);
        }
    }

    /// Appends lines. The fields of some columns are made as pieces. What the others need before their items is drawn.
    pub(crate) fn put_mixed_lines(
        &self,
        at: &ParentAt<'_>,
        run: &LineRun<'_>,
        count: usize,
        made: &[bool],
        pieces: &[Piece],
        items: &[ItemizedField],
        page: &mut PageBuf,
    )
        requires at { IsParentAt self.now at.now }
        requires lines { AreLines self.now at.now.unit count run.now }
        requires small { (k : ℕ) → k < count → get_or run.now.rows.keys.now k 0 < 10 ^ 15 }
        requires flags { length made.now ≡ own_over self.now }
        requires pieces { count * (own_over self.now + 2) ≤ length pieces.now }
        requires items { length items.now ≡ length pieces.now }
        requires heads { AreHeads self.now count run.now pieces.now }
        requires made { (column : ℕ) → column < own_over self.now → get_or made.now column false ≡ true → AreFields self.now at.now.unit count run.now pieces.now ((column + 2) * count) column }
        requires itemized { (column : ℕ) → column < own_over self.now → is_itemized (ready_over self.now column).kind ≡ true → AreItems self.now count run.now items.now ((column + 2) * count) column }
        requires drawn { (column : ℕ) → column < own_over self.now → get_or made.now column false ≡ false → IsDrawnAt self.now column }
        requires room { length page.old.text + count * line_size self.now.plan self.now.kept.lists self.now.kept.detail ≤ page.old.room }
        ensures text { page.new ≡ record page.old { text = page.old.text ++ run_text self.now at.now.unit run.now count } }
        ensures size { length (run_text self.now at.now.unit run.now count) ≤ count * line_size self.now.plan self.now.kept.lists self.now.kept.detail }
    {
        for k in 0..count {
            self.put_mixed_line(k, at, run, count, made, pieces, items, page);
        }
    }

    /// Appends the line at a place, as `put_mixed_lines` does.
    fn put_mixed_line(
        &self,
        k: usize,
        at: &ParentAt<'_>,
        run: &LineRun<'_>,
        count: usize,
        made: &[bool],
        pieces: &[Piece],
        items: &[ItemizedField],
        page: &mut PageBuf,
    )
        requires line { k < count }
        requires at { IsParentAt self.now at.now }
        requires lines { AreLines self.now at.now.unit count run.now }
        requires small { get_or run.now.rows.keys.now k 0 < 10 ^ 15 }
        requires flags { length made.now ≡ own_over self.now }
        requires pieces { count * (own_over self.now + 2) ≤ length pieces.now }
        requires items { length items.now ≡ length pieces.now }
        requires heads { AreHeads self.now count run.now pieces.now }
        requires made { (column : ℕ) → column < own_over self.now → get_or made.now column false ≡ true → AreFields self.now at.now.unit count run.now pieces.now ((column + 2) * count) column }
        requires itemized { (column : ℕ) → column < own_over self.now → is_itemized (ready_over self.now column).kind ≡ true → AreItems self.now count run.now items.now ((column + 2) * count) column }
        requires drawn { (column : ℕ) → column < own_over self.now → get_or made.now column false ≡ false → IsDrawnAt self.now column }
        requires room { length page.old.text + line_size self.now.plan self.now.kept.lists self.now.kept.detail ≤ page.old.room }
        ensures text { page.new ≡ record page.old { text = page.old.text ++ made_line self.now at.now.unit (get_or run.now.rows.ordinals.now k 0) (get_or run.now.numbers.now k 0) } }
        ensures size { length (made_line self.now at.now.unit (get_or run.now.rows.ordinals.now k 0) (get_or run.now.numbers.now k 0)) ≤ line_size self.now.plan self.now.kept.lists self.now.kept.detail }
    {
        let _limits = self.declared(); // a line has room for a key, a number and the fields
        page.put_piece(&pieces[k]);
        page.put_piece(&pieces[count + k]);
        for column in 0..self.columns() {
            let place = (column + 2) * count + k;
            let (piece, field) = (&pieces[place], items[place]);
            self.put_mixed_field(column, k, at, run, count, made[column], piece, field, page);
        }
    }

    /// Appends the field of a line in the column at a place and the byte after it. A made field is put as its piece. A field of several items is
    /// put by what is drawn for it. Any other field is drawn by its line.
    fn put_mixed_field(
        &self,
        column: usize,
        k: usize,
        at: &ParentAt<'_>,
        run: &LineRun<'_>,
        count: usize,
        made: bool,
        piece: &Piece,
        field: ItemizedField,
        page: &mut PageBuf,
    )
        requires column { column < own_over self.now }
        requires line { k < count }
        requires at { IsParentAt self.now at.now }
        requires lines { AreLines self.now at.now.unit count run.now }
        requires text { made ≡ true → piece_text piece.now ≡ with_behind (behind_over self.now column) (text_over (line_of self.now at.now.unit run.now k) column) }
        requires size { made ≡ true → length (text_over (line_of self.now at.now.unit run.now k) column) ≤ size_over self.now column }
        requires drawn { made ≡ false → IsDrawnAt self.now column }
        requires itemized { is_itemized (ready_over self.now column).kind ≡ true → field ≡ itemized_by (ready_over self.now column) (drawn_seed self.now run.now column k) }
        requires room { length page.old.text + field_room self.now column ≤ page.old.room }
        ensures text { page.new ≡ record page.old { text = page.old.text ++ with_behind (behind_over self.now column) (text_over (line_of self.now at.now.unit run.now k) column) } }
        ensures size { length (text_over (line_of self.now at.now.unit run.now k) column) ≤ size_over self.now column }
    {
        if made {
            page.put_piece(piece);
            return;
        }
        let columns = self.ready();
        let prepared = self.prepared();
        let ready = &columns[column];
        let own = &prepared[column];
        let ReadyKind::Drawn(leaf) = &ready.kind else {
            return; // it is drawn
        };
        if own.is_itemized() {
            own.put_itemized(ready, field, page);
        } else {
            self.put_long(column, leaf, k, at, run, count, page);
        }
    }

    /// Appends the field of a line in a column of drawn values and the byte after it, by the line itself.
    fn put_long(
        &self,
        column: usize,
        leaf: &ReadyLeaf,
        k: usize,
        at: &ParentAt<'_>,
        run: &LineRun<'_>,
        count: usize,
        page: &mut PageBuf,
    )
        requires column { column < own_over self.now }
        requires drawn { (ready_over self.now column).kind ≡ ReadyKind.Drawn leaf.now }
        requires line { k < count }
        requires at { IsParentAt self.now at.now }
        requires lines { AreLines self.now at.now.unit count run.now }
        requires room { length page.old.text + field_room self.now column ≤ page.old.room }
        ensures text { page.new ≡ record page.old { text = page.old.text ++ with_behind (behind_over self.now column) (text_over (line_of self.now at.now.unit run.now k) column) } }
        ensures size { length (text_over (line_of self.now at.now.unit run.now k) column) ≤ size_over self.now column }
    {
        let _ = at;
        let columns = self.ready();
        let prepared = self.prepared();
        let own = &columns[column];
        let row = run.rows.row(k, count);
        let seed = prepared[column].seeds().at(draw_unit(own, &row));
        put_leaf_or_null(own.null, leaf, seed, run.drawn[k], page);
        let behind = byte_behind(self.delimiter(), self.columns(), column);
        page.put_piece(&Piece::of_byte(behind));
    }
}

/// Appends a value that is drawn with the seed of a column at a unit, or a null, as `null` of a thousand are.
fn put_leaf_or_null(null: u64, leaf: &ReadyLeaf, seed: u64, ordinal: u64, page: &mut PageBuf)
    requires ready { IsReady leaf.now }
    requires room { length page.old.text + max 2 (ready_size leaf.now) ≤ page.old.room }
    ensures text { page.new ≡ record page.old { text = page.old.text ++ text_or_null null leaf.now (row_draws seed ordinal) } }
    ensures size { length (text_or_null null leaf.now (row_draws seed ordinal)) ≤ max 2 (ready_size leaf.now) }
{
    if is_null(null, seed, ordinal) {
        put_null(page);
    } else {
        put_leaf(leaf, row_seed(seed, ordinal), page);
    }
}
