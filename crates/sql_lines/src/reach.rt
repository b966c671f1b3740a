//! The most bytes of a statement.

ghost use Rattle.std.specs.Prelude.{◌≡◌, ◌<◌, ◌≤◌, ◌^◌, length};
ghost use Rattle.schema_facts.specs.Layout.{layout_of};
ghost use Rattle.sql_lines.specs.Reach.{literal_size, statement_reach, statement_size};

use crate::bare::is_bare_at;
use schema_plan::Plan;

/// The most bytes of a statement's words and names, with what stands around them.
const STATEMENT_BYTES: u64 = 128;

/// The most bytes of a column's name in a statement, with what stands around the name and the literal.
const COLUMN_BYTES: u64 = 40;

/// The length of the literal of a null field, in bytes.
const NULL_SIZE: u64 = 4;

/// Returns the greatest length of a statement on any table, with its line feed, in bytes. Takes no memory.
pub fn statement_reach(plan: &Plan) -> u64
    ensures reach { result ≡ statement_reach (layout_of plan.now) }
    ensures some { 1 ≤ result }
    ensures few { result ≤ 2 ^ 18 }
{
    let _limits = plan.schema(); // there is a table
    let mut most = 0;
    for table in 0..plan.tables() {
        most = most.max(statement_size(plan, table));
    }
    most
}

/// Returns the greatest length of a statement on a table, with its line feed, in bytes.
pub(crate) fn statement_size(plan: &Plan, table: u32) -> u64
    requires { table < length plan.now.schema.tables }
    ensures size { result ≡ statement_size (layout_of plan.now) table }
    ensures some { 1 ≤ result }
    ensures few { result ≤ 2 ^ 18 }
{
    let _limits = plan.schema(); // a line has at most 65,536 bytes
    let mut size = STATEMENT_BYTES;
    for column in 0..plan.columns(table).len() {
        let bare = is_bare_at(plan, table, column);
        size += COLUMN_BYTES + literal_size(bare, plan.field_size(table, column));
    }
    size
}

/// Returns the greatest length of a literal, in bytes. `size` is the greatest size of its field.
fn literal_size(bare: bool, size: u64) -> u64
    requires { size ≤ 65536 }
    ensures { result ≡ literal_size bare size }
{
    if bare {
        size.max(NULL_SIZE)
    } else {
        2 * size + 2
    }
}
