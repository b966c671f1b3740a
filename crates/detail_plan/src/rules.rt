//! The rules of a detail table.

ghost use Rattle.std.specs.Prelude.{◌≡◌, ◌≤◌, length};
ghost use Rattle.schema_facts.specs.Capped.{capped};
ghost use Rattle.detail_plan.specs.Beside.{columns_beside};
ghost use Rattle.detail_plan.specs.Rules.{are_shown, facts_of, first_broken, has_columns, has_line_counts, has_new_name, has_parent, has_short_lines, is_shown, keep_column_rules, parent_columns, reach_of};

use crate::detail::{Detail, DetailColumn, DetailKind};
use schema_check::{are_columns_supplied, has_still_column, is_name, keeps_column_rules};
use schema_facts::{ColumnFacts, Dictionaries, columns_of, count, facts_among, place_of_table};
use schema_model::Column;
use schema_plan::Plan;

/// The most lines of a row.
const MAX_LINES: i64 = 64;

/// The most columns.
const MAX_COLUMNS: usize = 32;

/// The most bytes of all lines of a row.
const MAX_REACH: u64 = 65_536;

/// The greatest size of a line's number with a byte after it, in bytes.
const NUMBER_SIZE: u64 = 3;

/// Returns the number of the first rule that a detail table breaks over a plan, or None if it keeps all. The number 1 means E1. The columns
/// are those of the detail table beside the schema, and the facts are theirs.
pub(crate) fn first_broken(
    plan: &Plan,
    lists: &Dictionaries,
    detail: &Detail,
    columns: &[Column],
    facts: &[ColumnFacts],
) -> Option<u32>
    requires columns { columns.now ≡ columns_beside detail.now }
    requires facts { facts.now ≡ facts_of plan.now detail.now }
    ensures { result ≡ first_broken plan.now lists.now detail.now }
{
    if !are_columns_supplied(lists, columns) {
        Some(6)
    } else if !has_new_name(plan, detail) {
        Some(1)
    } else if !has_parent(plan, detail) {
        Some(2)
    } else if !has_line_counts(detail) {
        Some(3)
    } else if !has_columns(plan, detail, columns, facts) {
        Some(4)
    } else if !has_short_lines(plan, lists, detail, columns) {
        Some(5)
    } else {
        None
    }
}

fn has_new_name(plan: &Plan, detail: &Detail) -> bool
    ensures { result ≡ has_new_name plan.now detail.now }
{
    0 <= detail.seed && is_name(&detail.name) && plan.table_named(detail.name.as_str()).is_none()
}

fn has_parent(plan: &Plan, detail: &Detail) -> bool
    ensures { result ≡ has_parent plan.now detail.now }
{
    plan.table_named(detail.parent.as_str()).is_some()
}

fn has_line_counts(detail: &Detail) -> bool
    ensures { result ≡ has_line_counts detail.now }
{
    0 <= detail.lo && detail.lo <= detail.hi && 1 <= detail.hi && detail.hi <= MAX_LINES
}

fn has_columns(plan: &Plan, detail: &Detail, columns: &[Column], facts: &[ColumnFacts]) -> bool
    requires columns { columns.now ≡ columns_beside detail.now }
    requires facts { facts.now ≡ facts_of plan.now detail.now }
    ensures { result ≡ has_columns plan.now detail.now }
{
    let own = detail.columns.as_slice();
    1 <= own.len()
        && own.len() <= MAX_COLUMNS
        && keep_column_rules(facts, columns, own.len())
        && are_shown(parent_columns(plan, detail), own)
}

/// Whether each of the first columns keeps the rules of columns.
fn keep_column_rules(facts: &[ColumnFacts], columns: &[Column], count: usize) -> bool
    requires { count ≤ length columns.now }
    ensures { result ≡ keep_column_rules facts.now columns.now count }
{
    (0..count).all(|place| keeps_column_rules(facts_among(facts, place), columns, place))
}

/// Returns the columns of the parent's table. Of no table there are none.
fn parent_columns<'a>(plan: &'a Plan, detail: &Detail) -> &'a [Column]
    ensures { result.now ≡ parent_columns plan.now detail.now }
{
    let tables = plan.schema().tables.as_slice();
    columns_of(tables, place_of_table(tables, &detail.parent))
}

/// Whether each column of the parent that is shown can be.
fn are_shown(parent: &[Column], columns: &[DetailColumn]) -> bool
    ensures { result ≡ are_shown parent.now columns.now }
{
    columns.iter().all(|column| is_shown(parent, &column.kind))
}

/// Whether a column of the parent that is shown stands in its table, doesn't move and is no lookup.
fn is_shown(parent: &[Column], kind: &DetailKind) -> bool
    ensures { result ≡ is_shown parent.now kind.now }
{
    match kind {
        DetailKind::Parent { column } => has_still_column(parent, column),
        _ => true,
    }
}

/// Returns the greatest size of all lines of a row of the parent, in bytes, at most 2^64 - 1.
pub(crate) fn reach(plan: &Plan, lists: &Dictionaries, detail: &Detail, columns: &[Column]) -> u64
    requires { columns.now ≡ columns_beside detail.now }
    ensures { result ≡ capped (reach_of plan.now lists.now detail.now) }
{
    let size = plan.line_beside(lists, columns).saturating_add(NUMBER_SIZE);
    count(detail.hi).saturating_mul(size)
}

fn has_short_lines(plan: &Plan, lists: &Dictionaries, detail: &Detail, columns: &[Column]) -> bool
    requires { columns.now ≡ columns_beside detail.now }
    ensures { result ≡ has_short_lines plan.now lists.now detail.now }
{
    reach(plan, lists, detail, columns) <= MAX_REACH
}
