//! Key lines of many rows at once.

ghost use Rattle.std.specs.Prelude.{◌≡◌, ◌<◌, ◌≤◌, ℕ, ◌+◌, ◌*◌, ◌++◌, codes, decimal, get_or, length};
ghost use Rattle.std.specs.List.{flat_map};
ghost use Rattle.schema_facts.specs.Lineage.{one_if};
ghost use Rattle.life_intervals.specs.Generator.{rows_in_all, table_of};
ghost use Rattle.row_lines.specs.Runs.{keys_text};

use crate::run_buf::{MOST_ROWS, RunBuf};
use crate::table_lines::has_short_keys;
use life_intervals::Rows;
use line_pages::{Digits, PageBuf, Piece};
use std::sync::ledger::Ledger;
use step_count::Steps;

/// The size of the longest key line in bytes: a number of 20 digits and a line feed.
pub const KEY_LINE: usize = 21;

/// Appends the key lines of the rows of these ordinals, of the units 0 to the last. `KEY_LINE` bytes must be free for each row.
/// Each row takes one step if the keys are scrambled, else none.
pub fn put_keys<L: Ledger>(
    rows: &Rows<'_>,
    digits: &Digits,
    table: u32,
    ordinals: &[u64],
    work: &mut RunBuf,
    page: &mut PageBuf,
    steps: &mut Steps<L>,
)
    requires table { table < length rows.now.schema.tables }
    requires rows { (i : ℕ) → i < length ordinals.now → get_or ordinals.now i 0 < rows_in_all rows.now table }
    requires room { length page.old.text + length ordinals.now * KEY_LINE ≤ page.old.room }
    ensures text { page.new ≡ record page.old { text = page.old.text ++ keys_text rows.now table ordinals.now } }
    ensures size { length (keys_text rows.now table ordinals.now) ≤ length ordinals.now * KEY_LINE }
    ensures steps { steps.new ≡ steps.old + length ordinals.now * one_if (table_of rows.now table).key.scramble }
{
    let mut done = 0;
    while done < ordinals.len() {
        let some = (ordinals.len() - done).min(MOST_ROWS);
        let listed = &ordinals[done..done + some];
        put_few_keys(rows, digits, table, listed, work, page, steps);
        done += some;
    }
}

/// Appends the key lines of at most as many rows as a run has.
fn put_few_keys<L: Ledger>(
    rows: &Rows<'_>,
    digits: &Digits,
    table: u32,
    ordinals: &[u64],
    work: &mut RunBuf,
    page: &mut PageBuf,
    steps: &mut Steps<L>,
)
    requires table { table < length rows.now.schema.tables }
    requires few { length ordinals.now ≤ MOST_ROWS }
    requires rows { (i : ℕ) → i < length ordinals.now → get_or ordinals.now i 0 < rows_in_all rows.now table }
    requires room { length page.old.text + length ordinals.now * KEY_LINE ≤ page.old.room }
    ensures text { page.new ≡ record page.old { text = page.old.text ++ keys_text rows.now table ordinals.now } }
    ensures size { length (keys_text rows.now table ordinals.now) ≤ length ordinals.now * KEY_LINE }
    ensures steps { steps.new ≡ steps.old + length ordinals.now * one_if (table_of rows.now table).key.scramble }
{
    let plan = rows.plan();
    let _limits = plan.table(table); // its keys are below 2^63
    let count = ordinals.len();
    let all = &mut work.rows.births[..];
    let births = &mut all[..count];
    rows.put_births(table, plan.units(), ordinals, births);
    let all = &mut work.fields.keys[..];
    let keys = &mut all[..count];
    rows.put_keys(table, ordinals, births, keys, steps);
    if has_short_keys(plan, table) {
        let all = &mut work.fields.pieces[..];
        let pieces = &mut all[..count];
        digits.fill(keys, b'\n', pieces);
        page.put_rows(pieces, 1, count, count);
    } else {
        put_long_keys(keys, page);
    }
}

/// Appends a line for each key.
fn put_long_keys(keys: &[u64], page: &mut PageBuf)
    requires { length page.old.text + length keys.now * KEY_LINE ≤ page.old.room }
    ensures { page.new ≡ record page.old { text = page.old.text ++ flat_map (λ key. decimal key ++ codes "\n") keys.now } }
{
    for key in keys {
        page.put_number(*key);
        page.put_piece(&Piece::of_byte(b'\n'));
    }
}
