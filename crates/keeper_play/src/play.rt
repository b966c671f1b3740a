//! Makes the statements of a unit.

ghost use Rattle.std.specs.Prelude.{◌≡◌, ◌<◌, ◌≤◌, ◌∷◌, [], All, IsTrue, flat_map, length, map, reverse, OnErr, OnOk, true};
ghost use Rattle.std.specs.List.{range_with_len};
ghost use Rattle.cohort_sizes.specs.Births.{born_count};
ghost use Rattle.pd_outside.specs.Faults.{CallsMade};
ghost use Rattle.schema_facts.specs.Layout.{layout_of};
ghost use Rattle.schema_facts.specs.TableFacts.{reach};
ghost use Rattle.life_intervals.specs.CohortKeys.{IsCohort};
ghost use Rattle.life_intervals.specs.Found.{IsFound};
ghost use Rattle.life_intervals.specs.Generator.{generator_of, last_unit, rows_in_all, table_of};
ghost use Rattle.life_intervals.specs.Intervals.{is_live};
ghost use Rattle.keeper_play.specs.Played.{TellsUnit, drop_at, put_at};
ghost use Rattle.keeper_play.specs.Statements.{deletions, insertions, places, unit_statements, updates};
ghost use Rattle.keeper_play.specs.declared.refs.TheConstants.{MOST_REFS};
ghost use Rattle.row_keeper.specs.Store.{StoppedIn, perform_all};

use crate::UnitSource;
use crate::refs::{NO_REFS, find_refs};
use life_intervals::{Cohort, FoundRow, Rows, find};
use line_pages::PageBuf;
use row_keeper::{KeepFailed, Keeper, RefTo};
use row_lines::CohortLines;
use schema_plan::Plan;
use std::sync::ledger::Ledger;
use step_count::Steps;

/// Makes the statements of a unit. Puts the rows that it updates, table by table. Drops the rows that it deletes, from the last table to the
/// first. Puts the rows that it inserts, table by table. Unit 0 only inserts.
///
/// `source` tells what the unit does. `buf` is empty and has room for the longest line. At `KeepFailed` only the statements before the failed
/// one were made; the store stays open, and `buf` is empty again. Takes no memory.
pub fn play_unit<K: Keeper, U: UnitSource, L: Ledger>(
    plan: &Plan,
    unit: u64,
    source: &U,
    keeper: &mut K,
    buf: &mut PageBuf,
    steps: &mut Steps<L>,
) -> Result<(), KeepFailed>
    requires unit { unit ≤ last_unit plan.now }
    requires source { TellsUnit plan.now unit (U.tables source.now) (U.changes source.now) }
    requires is_open { IsTrue (K.store keeper.old).is_open }
    requires empty { buf.old.text ≡ [] }
    requires room { reach (layout_of plan.now) ≤ buf.old.room }
    ensures made { OnOk result (K.store keeper.new ≡ perform_all (unit_statements (generator_of plan.now) unit) (K.store keeper.old)) }
    ensures stopped { OnErr result (StoppedIn (unit_statements (generator_of plan.now) unit) (K.store keeper.old) (K.store keeper.new)) }
    ensures counts { CallsMade result (K.counts keeper.old) (K.counts keeper.new) }
    ensures page { buf.new ≡ buf.old }
{
    play_rows(&Rows::of(plan), unit, source, keeper, buf, steps)
}

/// Makes the statements of a unit as `play_unit` does, with the orders that `rows` keeps.
pub fn play_rows<K: Keeper, U: UnitSource, L: Ledger>(
    rows: &Rows<'_>,
    unit: u64,
    source: &U,
    keeper: &mut K,
    buf: &mut PageBuf,
    steps: &mut Steps<L>,
) -> Result<(), KeepFailed>
    requires unit { unit ≤ last_unit rows.now }
    requires source { TellsUnit rows.now unit (U.tables source.now) (U.changes source.now) }
    requires is_open { IsTrue (K.store keeper.old).is_open }
    requires empty { buf.old.text ≡ [] }
    requires room { reach (layout_of rows.now) ≤ buf.old.room }
    ensures made { OnOk result (K.store keeper.new ≡ perform_all (unit_statements (generator_of rows.now) unit) (K.store keeper.old)) }
    ensures stopped { OnErr result (StoppedIn (unit_statements (generator_of rows.now) unit) (K.store keeper.old) (K.store keeper.new)) }
    ensures counts { CallsMade result (K.counts keeper.old) (K.counts keeper.new) }
    ensures page { buf.new ≡ buf.old }
{
    let _limits = rows.plan().schema(); // so the rows of unit 0 are its insertions
    put_updates(rows, unit, source, keeper, buf, steps)?;
    drop_deletions(rows, unit, source, keeper, steps)?;
    put_insertions(rows, unit, source, keeper, buf, steps)
}

/// Puts the rows that a unit updates, table by table.
fn put_updates<K: Keeper, U: UnitSource, L: Ledger>(
    rows: &Rows<'_>,
    unit: u64,
    source: &U,
    keeper: &mut K,
    buf: &mut PageBuf,
    steps: &mut Steps<L>,
) -> Result<(), KeepFailed>
    requires unit { unit ≤ last_unit rows.now }
    requires source { TellsUnit rows.now unit (U.tables source.now) (U.changes source.now) }
    requires is_open { IsTrue (K.store keeper.old).is_open }
    requires empty { buf.old.text ≡ [] }
    requires room { reach (layout_of rows.now) ≤ buf.old.room }
    ensures made { OnOk result (K.store keeper.new ≡ perform_all (flat_map (updates (generator_of rows.now) unit) (places (generator_of rows.now))) (K.store keeper.old)) }
    ensures stopped { OnErr result (StoppedIn (flat_map (updates (generator_of rows.now) unit) (places (generator_of rows.now))) (K.store keeper.old) (K.store keeper.new)) }
    ensures counts { CallsMade result (K.counts keeper.old) (K.counts keeper.new) }
    ensures page { buf.new ≡ buf.old }
{
    let _limits = rows.plan().schema(); // so the rows that it updates are alive
    for table in 0..rows.plan().tables() {
        put_listed(rows, unit, table, source.upds(table), keeper, buf, steps)?;
    }
    Ok(())
}

/// Drops the rows that a unit deletes, from the last table to the first, since a row must go before the rows to which it refers.
fn drop_deletions<K: Keeper, U: UnitSource, L: Ledger>(
    rows: &Rows<'_>,
    unit: u64,
    source: &U,
    keeper: &mut K,
    steps: &mut Steps<L>,
) -> Result<(), KeepFailed>
    requires unit { unit ≤ last_unit rows.now }
    requires source { TellsUnit rows.now unit (U.tables source.now) (U.changes source.now) }
    requires is_open { IsTrue (K.store keeper.old).is_open }
    ensures made { OnOk result (K.store keeper.new ≡ perform_all (flat_map (deletions (generator_of rows.now) unit) (reverse (places (generator_of rows.now)))) (K.store keeper.old)) }
    ensures stopped { OnErr result (StoppedIn (flat_map (deletions (generator_of rows.now) unit) (reverse (places (generator_of rows.now)))) (K.store keeper.old) (K.store keeper.new)) }
    ensures counts { CallsMade result (K.counts keeper.old) (K.counts keeper.new) }
{
    let _limits = rows.plan().schema(); // so the rows that it deletes are born
    let tables = rows.plan().tables();
    for behind in 0..tables {
        let table = tables - 1 - behind;
        drop_listed(rows, table, source.dels(table), keeper, steps)?;
    }
    Ok(())
}

/// Puts the rows that a unit inserts, table by table.
fn put_insertions<K: Keeper, U: UnitSource, L: Ledger>(
    rows: &Rows<'_>,
    unit: u64,
    source: &U,
    keeper: &mut K,
    buf: &mut PageBuf,
    steps: &mut Steps<L>,
) -> Result<(), KeepFailed>
    requires unit { unit ≤ last_unit rows.now }
    requires source { TellsUnit rows.now unit (U.tables source.now) (U.changes source.now) }
    requires is_open { IsTrue (K.store keeper.old).is_open }
    requires empty { buf.old.text ≡ [] }
    requires room { reach (layout_of rows.now) ≤ buf.old.room }
    ensures made { OnOk result (K.store keeper.new ≡ perform_all (flat_map (insertions (generator_of rows.now) unit) (places (generator_of rows.now))) (K.store keeper.old)) }
    ensures stopped { OnErr result (StoppedIn (flat_map (insertions (generator_of rows.now) unit) (places (generator_of rows.now))) (K.store keeper.old) (K.store keeper.new)) }
    ensures counts { CallsMade result (K.counts keeper.old) (K.counts keeper.new) }
    ensures page { buf.new ≡ buf.old }
{
    let _limits = rows.plan().schema(); // so the rows that it inserts are alive
    for table in 0..rows.plan().tables() {
        put_cohort(rows, unit, table, source.ins(table), keeper, buf, steps)?;
    }
    Ok(())
}

/// Puts rows of a table as they are at a unit. They are born by it and alive at it.
fn put_listed<K: Keeper, L: Ledger>(
    rows: &Rows<'_>,
    unit: u64,
    table: u32,
    ordinals: &[u64],
    keeper: &mut K,
    buf: &mut PageBuf,
    steps: &mut Steps<L>,
) -> Result<(), KeepFailed>
    requires table { table < length rows.now.schema.tables }
    requires unit { unit ≤ last_unit rows.now }
    requires born { All (λ j. j < born_count (table_of rows.now table).births unit) ordinals.now }
    requires alive { All (λ j. is_live (generator_of rows.now) table unit j ≡ true) ordinals.now }
    requires is_open { IsTrue (K.store keeper.old).is_open }
    requires empty { buf.old.text ≡ [] }
    requires room { reach (layout_of rows.now) ≤ buf.old.room }
    ensures made { OnOk result (K.store keeper.new ≡ perform_all (map (put_at rows.now unit table) ordinals.now) (K.store keeper.old)) }
    ensures stopped { OnErr result (StoppedIn (map (put_at rows.now unit table) ordinals.now) (K.store keeper.old) (K.store keeper.new)) }
    ensures counts { CallsMade result (K.counts keeper.old) (K.counts keeper.new) }
    ensures page { buf.new ≡ buf.old }
{
    let mut refs = NO_REFS;
    for j in ordinals {
        let row = find(rows.plan(), table, *j);
        let lines = CohortLines::new(&*rows, table, row.born, unit);
        put_row(
            rows, &lines, table, row, unit, keeper, &mut refs, buf, steps,
        )?;
    }
    Ok(())
}

/// Puts the cohort of a unit.
fn put_cohort<K: Keeper, L: Ledger>(
    rows: &Rows<'_>,
    unit: u64,
    table: u32,
    cohort: Cohort,
    keeper: &mut K,
    buf: &mut PageBuf,
    steps: &mut Steps<L>,
) -> Result<(), KeepFailed>
    requires table { table < length rows.now.schema.tables }
    requires unit { unit ≤ last_unit rows.now }
    requires cohort { IsCohort rows.now table unit cohort }
    requires is_open { IsTrue (K.store keeper.old).is_open }
    requires empty { buf.old.text ≡ [] }
    requires room { reach (layout_of rows.now) ≤ buf.old.room }
    ensures made { OnOk result (K.store keeper.new ≡ perform_all (map (put_at rows.now unit table) (range_with_len cohort.first cohort.size)) (K.store keeper.old)) }
    ensures stopped { OnErr result (StoppedIn (map (put_at rows.now unit table) (range_with_len cohort.first cohort.size)) (K.store keeper.old) (K.store keeper.new)) }
    ensures counts { CallsMade result (K.counts keeper.old) (K.counts keeper.new) }
    ensures page { buf.new ≡ buf.old }
{
    let _limits = rows.plan().schema(); // so its rows are alive
    let mut refs = NO_REFS;
    let lines = CohortLines::new(rows, table, unit, unit);
    for index in 0..cohort.size {
        let row = FoundRow {
            ordinal: cohort.first + index,
            born: unit,
            index,
        };
        put_row(
            rows, &lines, table, row, unit, keeper, &mut refs, buf, steps,
        )?;
    }
    Ok(())
}

/// Drops rows of a table.
fn drop_listed<K: Keeper, L: Ledger>(
    rows: &Rows<'_>,
    table: u32,
    ordinals: &[u64],
    keeper: &mut K,
    steps: &mut Steps<L>,
) -> Result<(), KeepFailed>
    requires table { table < length rows.now.schema.tables }
    requires born { All (λ j. j < rows_in_all rows.now table) ordinals.now }
    requires is_open { IsTrue (K.store keeper.old).is_open }
    ensures made { OnOk result (K.store keeper.new ≡ perform_all (map (drop_at rows.now table) ordinals.now) (K.store keeper.old)) }
    ensures stopped { OnErr result (StoppedIn (map (drop_at rows.now table) ordinals.now) (K.store keeper.old) (K.store keeper.new)) }
    ensures counts { CallsMade result (K.counts keeper.old) (K.counts keeper.new) }
{
    for j in ordinals {
        let key = rows.key(table, *j, steps);
        keeper.drop_row(table, key)?;
    }
    Ok(())
}

/// Puts a found row as it is at a unit, by the lines of its cohort. The row is born by the unit and alive at it. `refs` has room for its
/// references.
fn put_row<K: Keeper, L: Ledger>(
    rows: &Rows<'_>,
    lines: &CohortLines<'_>,
    table: u32,
    row: FoundRow,
    unit: u64,
    keeper: &mut K,
    refs: &mut [RefTo],
    buf: &mut PageBuf,
    steps: &mut Steps<L>,
) -> Result<(), KeepFailed>
    requires lines { lines.now ≡ record { plan = rows.now; table = table; born = row.born; unit = unit } }
    requires table { table < length rows.now.schema.tables }
    requires unit { unit ≤ last_unit rows.now }
    requires row { IsFound rows.now table row }
    requires born { row.born ≤ unit }
    requires alive { is_live (generator_of rows.now) table unit row.ordinal ≡ true }
    requires is_open { IsTrue (K.store keeper.old).is_open }
    requires refs { MOST_REFS ≤ length refs.old }
    requires empty { buf.old.text ≡ [] }
    requires room { reach (layout_of rows.now) ≤ buf.old.room }
    ensures made { OnOk result (K.store keeper.new ≡ perform_all (put_at rows.now unit table row.ordinal ∷ []) (K.store keeper.old)) }
    ensures stopped { OnErr result (StoppedIn (put_at rows.now unit table row.ordinal ∷ []) (K.store keeper.old) (K.store keeper.new)) }
    ensures counts { CallsMade result (K.counts keeper.old) (K.counts keeper.new) }
    ensures page { buf.new ≡ buf.old }
{
    let _limits = rows.plan().schema(); // so each line is within the reach
    let key = rows.found_key(table, row, steps);
    let count = find_refs(rows, table, row, unit, refs, steps);
    let changed = rows.found_change(table, row, unit, steps);
    lines.put_changed_line(row.index, key, changed, buf, steps);
    let kept = keeper.put(table, key, &refs[..count], buf.text());
    buf.clear();
    kept
}
