//! The line and the key line of one row.

ghost use Rattle.std.specs.Prelude.{◌≡◌, ◌<◌, ◌≤◌, ◌+◌, ◌++◌, true, Some, length};
ghost use Rattle.std.specs.Option.{option_map};
ghost use Rattle.cohort_sizes.specs.Births.{born_count};
ghost use Rattle.schema_facts.specs.Layout.{layout_of};
ghost use Rattle.schema_facts.specs.Lineage.{death_cost, one_if};
ghost use Rattle.schema_facts.specs.TableFacts.{line_cost, max_line};
ghost use Rattle.life_intervals.specs.Generator.{generator_of, last_unit, rows_in_all, table_of};
ghost use Rattle.life_intervals.specs.Intervals.{is_live};
ghost use Rattle.life_intervals.specs.Simulation.{holds_row, rows_at};
ghost use Rattle.row_lines.specs.declared.run_keys.TheConstants.{KEY_LINE};
ghost use Rattle.row_lines.specs.Lines.{held_row, key_line_of, line, line_of};

use crate::cohort_lines::CohortLines;
use life_intervals::{Rows, birth, born, cohort, death, key};
use line_pages::{PageBuf, Piece};
use schema_plan::Plan;
use std::sync::ledger::Ledger;
use step_count::Steps;

/// Whether a table holds the row of ordinal `j` at unit `t`: it is born by the unit and not dead. Takes at most as many
/// permutations as the cost of a row counts for its death.
pub fn live<L: Ledger>(plan: &Plan, table: u32, j: u64, t: u64, steps: &mut Steps<L>) -> bool
    requires table { table < length plan.now.schema.tables }
    requires unit { t ≤ last_unit plan.now }
    requires row { j < rows_in_all plan.now table }
    ensures held { result ≡ holds_row (rows_at (generator_of plan.now) table t) j }
    ensures live { j < born_count (table_of plan.now table).births t → result ≡ is_live (generator_of plan.now) table t j }
    ensures steps { steps.new ≤ steps.old + death_cost (layout_of plan.now).tables table }
{
    let _sound = plan.schema(); // so the simulation is its closed form
    if j >= born(plan, table, t) {
        return false;
    }
    match death(plan, table, j, steps) {
        Some(unit) => t < unit,
        None => true,
    }
}

/// Appends the line at unit `t` of the row of ordinal `j`, which must be born by the unit and alive. It is the line of the row that the
/// simulation holds. The size of the table's greatest line must be free. Takes at most as many permutations as the cost of a row counts
/// for its line.
pub fn put_line<L: Ledger>(
    plan: &Plan,
    table: u32,
    j: u64,
    t: u64,
    buf: &mut PageBuf,
    steps: &mut Steps<L>,
)
    requires table { table < length plan.now.schema.tables }
    requires unit { t ≤ last_unit plan.now }
    requires born { j < born_count (table_of plan.now table).births t }
    requires alive { is_live (generator_of plan.now) table t j ≡ true }
    requires room { length buf.old.text + max_line (layout_of plan.now) table ≤ buf.old.room }
    ensures line { buf.new ≡ record buf.old { text = buf.old.text ++ line_of (generator_of plan.now) t table j } }
    ensures simulated { option_map (line (generator_of plan.now) t table) (held_row (generator_of plan.now) table t j)
        ≡ Some (line_of (generator_of plan.now) t table j) }
    ensures size { length (line_of (generator_of plan.now) t table j) ≤ max_line (layout_of plan.now) table }
    ensures steps { steps.new ≤ steps.old + line_cost (layout_of plan.now) table }
{
    let _sound = plan.schema(); // so the simulation is its closed form
    let born = birth(plan, table, j);
    let index = j - cohort(plan, table, born).first;
    let rows = Rows::of(plan);
    CohortLines::new(&rows, table, born, t).put_line(index, buf, steps);
}

/// Appends the key line of the row of ordinal `j`: its key and a line feed. `KEY_LINE` bytes must be free. Takes one step if the
/// keys are scrambled, else none.
pub fn put_key<L: Ledger>(plan: &Plan, table: u32, j: u64, buf: &mut PageBuf, steps: &mut Steps<L>)
    requires table { table < length plan.now.schema.tables }
    requires row { j < rows_in_all plan.now table }
    requires room { length buf.old.text + KEY_LINE ≤ buf.old.room }
    ensures line { buf.new ≡ record buf.old { text = buf.old.text ++ key_line_of (generator_of plan.now) (last_unit plan.now) table j } }
    ensures size { length (key_line_of (generator_of plan.now) (last_unit plan.now) table j) ≤ KEY_LINE }
    ensures steps { steps.new ≡ steps.old + one_if (table_of plan.now table).key.scramble }
{
    buf.put_number(key(plan, table, j, steps));
    buf.put_piece(&Piece::of_byte(b'\n'));
}
