//! The report on one row.

ghost use Rattle.std.specs.Prelude.{◌≡◌, ◌<◌, ◌≤◌, ◌+◌, ◌++◌, ◌&&◌, Some, [], codes, decimal, is_some, length, nat_le, true, unwrap_or};
ghost use Rattle.cohort_sizes.specs.Births.{born_count};
ghost use Rattle.schema_facts.specs.Layout.{layout_of};
ghost use Rattle.schema_facts.specs.Lineage.{death_cost};
ghost use Rattle.schema_facts.specs.TableFacts.{cost, line_cost, max_line};
ghost use Rattle.life_intervals.specs.Generator.{generator_of, last_unit, rows_in_all, table_of};
ghost use Rattle.life_intervals.specs.Intervals.{is_after, is_live, row_at};
ghost use Rattle.life_intervals.specs.Keys.{key_of};
ghost use Rattle.row_lines.specs.declared.run_keys.TheConstants.{KEY_LINE};
ghost use Rattle.row_lines.specs.Reports.{gone_at, gone_text, held_text, report_on, row_report, state_text};

use crate::cohort_lines::CohortLines;
use life_intervals::{Rows, birth, cohort, death, last_change, row_of_key};
use line_pages::PageBuf;
use schema_plan::Plan;
use std::sync::ledger::Ledger;
use step_count::Steps;

/// Appends the report at unit `t` on the row of a table that has a key. The report has the row's birth, the unit at which it is
/// gone, and its state at the unit. If the row is alive at the unit, it also has the unit of its last change and its line. Returns
/// false, and appends nothing, exactly if no row of the units 0 to the last has the key. 128 bytes and the size of the table's
/// greatest line must be free. Takes at most as many permutations as the cost of a row, for any unit and any number of rows.
pub fn row_report<L: Ledger>(
    plan: &Plan,
    table: u32,
    key: u64,
    t: u64,
    buf: &mut PageBuf,
    steps: &mut Steps<L>,
) -> bool
    requires table { table < length plan.now.schema.tables }
    requires unit { t ≤ last_unit plan.now }
    requires room { length buf.old.text + (128 + max_line (layout_of plan.now) table) ≤ buf.old.room }
    ensures found { result ≡ is_some (report_on plan.now table t key) }
    ensures text { buf.new ≡ record buf.old { text = buf.old.text ++ unwrap_or (report_on plan.now table t key) [] } }
    ensures size { length (unwrap_or (report_on plan.now table t key) []) ≤ 128 + max_line (layout_of plan.now) table }
    ensures steps { steps.new ≤ steps.old + cost (layout_of plan.now) table }
{
    match row_of_key(plan, table, key, steps) {
        Some(j) => {
            put_report(plan, table, j, key, t, buf, steps);
            true
        }
        None => false,
    }
}

/// Appends the report at unit `t` on the row of ordinal `j`, which must have the key `key`.
fn put_report<L: Ledger>(
    plan: &Plan,
    table: u32,
    j: u64,
    key: u64,
    t: u64,
    buf: &mut PageBuf,
    steps: &mut Steps<L>,
)
    requires table { table < length plan.now.schema.tables }
    requires row { j < rows_in_all plan.now table }
    requires key { key_of (generator_of plan.now) table (last_unit plan.now) j ≡ key }
    requires unit { t ≤ last_unit plan.now }
    requires room { length buf.old.text + (128 + max_line (layout_of plan.now) table) ≤ buf.old.room }
    ensures text { buf.new ≡ record buf.old { text = buf.old.text ++ row_report (generator_of plan.now) (last_unit plan.now) table t j } }
    ensures size { length (row_report (generator_of plan.now) (last_unit plan.now) table t j) ≤ 128 + max_line (layout_of plan.now) table }
    ensures steps { steps.new ≤ steps.old + death_cost (layout_of plan.now).tables table + line_cost (layout_of plan.now) table }
{
    let _sound = plan.schema(); // so the simulation is its closed form
    let born = birth(plan, table, j);
    let gone = gone_at(plan, table, j, steps);
    let held = is_held(born, gone, t);
    put_number_line(buf, b"born ", born);
    put_gone_line(buf, gone);
    put_state_line(buf, born <= t, held);
    if held {
        put_held(plan, table, j, key, t, buf, steps);
    }
}

/// Returns the unit at which the row of ordinal `j` is gone, its death. Returns None if that doesn't come by the last unit. Takes
/// at most as many permutations as the cost of a death.
fn gone_at<L: Ledger>(plan: &Plan, table: u32, j: u64, steps: &mut Steps<L>) -> Option<u64>
    requires table { table < length plan.now.schema.tables }
    requires row { j < rows_in_all plan.now table }
    ensures unit { result ≡ gone_at (generator_of plan.now) (last_unit plan.now) table j }
    ensures steps { steps.new ≤ steps.old + death_cost (layout_of plan.now).tables table }
{
    let _sound = plan.schema(); // so the simulation is its closed form
    let last = plan.units();
    match death(plan, table, j, steps) {
        Some(unit) if unit <= last => Some(unit),
        _ => None,
    }
}

/// Whether a table holds, at unit `t`, a row that is born at `born` and gone at `gone`.
fn is_held(born: u64, gone: Option<u64>, t: u64) -> bool
    ensures { result ≡ (nat_le born t && is_after gone t) }
{
    born <= t && gone.is_none_or(|unit| t < unit)
}

/// Appends a line of a label and a number.
fn put_number_line(buf: &mut PageBuf, label: &[u8], number: u64)
    requires { length buf.old.text + (length label.now + KEY_LINE) ≤ buf.old.room }
    ensures text { buf.new ≡ record buf.old { text = buf.old.text ++ (label.now ++ decimal number ++ codes "\n") } }
    ensures size { length (label.now ++ decimal number ++ codes "\n") ≤ length label.now + KEY_LINE }
{
    buf.put(label);
    buf.put_number(number);
    buf.put(b"\n");
}

/// Appends the line with the unit at which a row is gone.
fn put_gone_line(buf: &mut PageBuf, gone: Option<u64>)
    requires { length buf.old.text + 26 ≤ buf.old.room }
    ensures text { buf.new ≡ record buf.old { text = buf.old.text ++ (codes "gone " ++ gone_text gone ++ codes "\n") } }
    ensures size { length (codes "gone " ++ gone_text gone ++ codes "\n") ≤ 26 }
{
    match gone {
        Some(unit) => put_number_line(buf, b"gone ", unit),
        None => buf.put(b"gone never\n"),
    }
}

/// Appends the line with a row's state at a unit. `born` tells if the row is born by the unit, and `held` if its table holds it.
fn put_state_line(buf: &mut PageBuf, born: bool, held: bool)
    requires { length buf.old.text + 13 ≤ buf.old.room }
    ensures text { buf.new ≡ record buf.old { text = buf.old.text ++ (codes "state " ++ state_text born held ++ codes "\n") } }
    ensures size { length (codes "state " ++ state_text born held ++ codes "\n") ≤ 13 }
{
    if !born {
        buf.put(b"state unborn\n");
    } else if held {
        buf.put(b"state live\n");
    } else {
        buf.put(b"state dead\n");
    }
}

/// Appends the unit of the last change and the line of the row of ordinal `j`. The row must be alive at unit `t` and have the key
/// `key`. Takes at most as many permutations as the cost of a row counts for its line.
fn put_held<L: Ledger>(
    plan: &Plan,
    table: u32,
    j: u64,
    key: u64,
    t: u64,
    buf: &mut PageBuf,
    steps: &mut Steps<L>,
)
    requires table { table < length plan.now.schema.tables }
    requires unit { t ≤ last_unit plan.now }
    requires born { j < born_count (table_of plan.now table).births t }
    requires alive { is_live (generator_of plan.now) table t j ≡ true }
    requires key { key_of (generator_of plan.now) table (last_unit plan.now) j ≡ key }
    requires room { length buf.old.text + (29 + max_line (layout_of plan.now) table) ≤ buf.old.room }
    ensures text { buf.new ≡ record buf.old { text = buf.old.text ++ held_text (generator_of plan.now) t table (Some (row_at (generator_of plan.now) table t j)) } }
    ensures size { length (held_text (generator_of plan.now) t table (Some (row_at (generator_of plan.now) table t j))) ≤ 29 + max_line (layout_of plan.now) table }
    ensures steps { steps.new ≤ steps.old + line_cost (layout_of plan.now) table }
{
    let _sound = plan.schema(); // each reference is within its limits
    let _limits = plan.table(table); // its first column is the key
    let changed = last_change(plan, table, j, t, steps);
    put_number_line(buf, b"changed ", changed);
    let born = birth(plan, table, j);
    let index = j - cohort(plan, table, born).first;
    let rows = Rows::of(plan);
    let lines = CohortLines::new(&rows, table, born, t);
    lines.put_changed_line(index, key, changed, buf, steps);
}
