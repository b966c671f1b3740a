//! The field of a row in a column of units, of drawn values, of cases or of entries in turn, onto a page.

ghost use Rattle.std.specs.Prelude.{◌≡◌, ◌<◌, ◌≤◌, ◌+◌, ◌++◌, [], All, IfSome, decimal, length, option_map, unwrap_or};
ghost use Rattle.philox_seeds.specs.SeedTree.{draw as draw_of};
ghost use Rattle.schema_facts.specs.FieldSizes.{greatest_by};
ghost use Rattle.draw_values.specs.Dates.{date_text};
ghost use Rattle.draw_values.specs.ReadyValues.{AreUnits, HasDay, IsReady, IsReadyKind, IsReadyList, IsReadyPick, IsUnitDay, chooser_of, entry_count, ready_branch, ready_day, ready_entry_in_turn, ready_field, ready_held_entry, ready_kind_size, ready_size, ready_text, row_draws};
ghost use Rattle.draw_values.specs.Values.{is_null, put_of};

use crate::dates::put_date;
use crate::leaves::{FIRST_DRAW, put_leaf};
use crate::unit_dates::day_of_row;
use crate::values::{Put, RowAt};
use crate::weighted::chosen_group;
use crate::words::put_entry;
use line_pages::{PageBuf, Piece};
use philox_seeds::{draw, row_seed};
use schema_plan::{ReadyColumn, ReadyKind, ReadyLeaf, ReadyList, ReadyUnitDate};

/// The draw that decides if a field is null.
pub(crate) const NULL_DRAW: u32 = 0;

/// Whether a row's field is null, in a column with `null` null fields in a thousand. `seed` is the column's at the row's unit. A
/// column that is never null draws nothing.
#[inline(always)]
pub fn is_null(null: u64, seed: u64, ordinal: u64) -> bool
    ensures { result ≡ is_null null (row_draws seed ordinal) }
{
    null > 0 && draw(row_seed(seed, ordinal), NULL_DRAW) % 1000 < null
}

/// Returns the place of the column that chooses the column's fields: the pick column of a case, else the column itself.
#[inline(always)]
pub(crate) fn chooser_of(place: usize, column: &ReadyColumn) -> usize
    ensures { result ≡ chooser_of place column.now.kind }
{
    match &column.kind {
        ReadyKind::Case { on, .. } => *on as usize,
        _ => place,
    }
}

/// Returns the number of the entry that a row's field holds in a pick column. Returns None if the field is null.
#[inline(always)]
fn held_entry(pick: &ReadyColumn, seed: u64, ordinal: u64) -> Option<usize>
    requires { IsReadyPick pick.now.kind }
    ensures exact { result ≡ ready_held_entry pick.now (row_draws seed ordinal) }
    ensures within { IfSome result (λ entry. entry < entry_count pick.now.kind) }
{
    if is_null(pick.null, seed, ordinal) {
        return None;
    }
    match &pick.kind {
        ReadyKind::Drawn(ReadyLeaf::Pick { weights, total, .. }) => {
            let draw = draw(row_seed(seed, ordinal), FIRST_DRAW);
            Some(chosen_group(weights, total, draw))
        }
        _ => unreachable!(),
    }
}

/// Appends the value of an entry's branch, drawn with the seed of a row. Appends nothing if there is no entry.
#[inline(always)]
fn put_branch(branches: &[ReadyLeaf], entry: Option<usize>, seed: u64, buf: &mut PageBuf) -> Put
    requires ready { All IsReady branches.now }
    requires entry { IfSome entry (λ place. place < length branches.now) }
    requires room { length buf.old.text + greatest_by ready_size branches.now ≤ buf.old.room }
    ensures put { result ≡ put_of (option_map (λ place. ready_text (ready_branch branches.now place) (draw_of seed)) entry) }
    ensures text { buf.new ≡ record buf.old { text = buf.old.text ++ unwrap_or (option_map (λ place. ready_text (ready_branch branches.now place) (draw_of seed)) entry) [] } }
    ensures size { length (unwrap_or (option_map (λ place. ready_text (ready_branch branches.now place) (draw_of seed)) entry) []) ≤ greatest_by ready_size branches.now }
{
    match entry {
        Some(place) => {
            put_leaf(&branches[place], seed, buf);
            Put::Text
        }
        None => Put::Null,
    }
}

/// A column with the seed from which a row's field is drawn.
#[derive(Clone, Copy)]
pub(crate) struct Drawn<'a> {
    pub(crate) column: &'a ReadyColumn,
    pub(crate) seed: u64,
}

/// Appends a unit. 5 bytes must be free.
#[inline(always)]
fn put_unit(unit: u64, buf: &mut PageBuf)
    requires unit { unit ≤ 10000 }
    requires room { length buf.old.text + 5 ≤ buf.old.room }
    ensures text { buf.new ≡ record buf.old { text = buf.old.text ++ decimal unit } }
    ensures size { length (decimal unit) ≤ 5 }
{
    buf.put_piece(&Piece::of_number(unit));
}

/// Appends the entry of a list that the row with an ordinal takes. The size of the greatest entry must be free.
#[inline(always)]
fn put_entry_in_turn(list: &ReadyList, ordinal: u64, buf: &mut PageBuf)
    requires ready { IsReadyList list.now }
    requires room { length buf.old.text + greatest_by length list.now.words.entries ≤ buf.old.room }
    ensures text { buf.new ≡ record buf.old { text = buf.old.text ++ ready_entry_in_turn list.now ordinal } }
    ensures size { length (ready_entry_in_turn list.now ordinal) ≤ greatest_by length list.now.words.entries }
{
    put_entry(&list.words, list.count.remainder(ordinal) as usize, buf);
}

/// Appends the date of the unit that a row shows. 10 bytes must be free.
#[inline(always)]
fn put_unit_date(date: &ReadyUnitDate, at: RowAt, buf: &mut PageBuf)
    requires day { IsUnitDay date.now at }
    requires room { length buf.old.text + 10 ≤ buf.old.room }
    ensures text { buf.new ≡ record buf.old { text = buf.old.text ++ date_text (ready_day date.now at) } }
    ensures size { length (date_text (ready_day date.now at)) ≡ 10 }
{
    put_date(day_of_row(date, at), buf);
}

/// Appends the row's field in the column `own`, as it is written. A null field appends nothing. `chooser` is the column that
/// chooses the field. The greatest size of the column's fields must be free.
#[inline(always)]
pub(crate) fn put_field(own: Drawn<'_>, chooser: Drawn<'_>, at: RowAt, buf: &mut PageBuf) -> Put
    requires ready { IsReadyKind chooser.column.now.kind own.column.now.kind }
    requires units { AreUnits at }
    requires day { HasDay own.column.now.kind at }
    requires room { length buf.old.text + ready_kind_size own.column.now.kind ≤ buf.old.room }
    ensures put { result ≡ put_of (ready_field at chooser.entry.column.now (row_draws chooser.entry.seed at.ordinal) own.entry.column.now (row_draws own.entry.seed at.ordinal)) }
    ensures text { buf.new ≡ record buf.old { text = buf.old.text ++ unwrap_or (ready_field at chooser.entry.column.now (row_draws chooser.entry.seed at.ordinal) own.entry.column.now (row_draws own.entry.seed at.ordinal)) [] } }
    ensures size { length (unwrap_or (ready_field at chooser.entry.column.now (row_draws chooser.entry.seed at.ordinal) own.entry.column.now (row_draws own.entry.seed at.ordinal)) []) ≤ ready_kind_size own.entry.column.now.kind }
{
    if is_null(own.column.null, own.seed, at.ordinal) {
        return Put::Null;
    }
    match &own.column.kind {
        ReadyKind::Born => put_unit(at.born, buf),
        ReadyKind::Changed => put_unit(at.changed, buf),
        ReadyKind::Drawn(leaf) => put_leaf(leaf, row_seed(own.seed, at.ordinal), buf),
        ReadyKind::Case { branches, .. } => {
            let entry = held_entry(chooser.column, chooser.seed, at.ordinal);
            let seed = row_seed(own.seed, at.ordinal);
            return put_branch(branches.as_slice(), entry, seed, buf);
        }
        ReadyKind::List(list) => put_entry_in_turn(list, at.ordinal, buf),
        ReadyKind::UnitDate(date) => put_unit_date(date, at, buf),
        _ => unreachable!(),
    }
    Put::Text
}
