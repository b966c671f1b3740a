//! What several tests need: whether a row or a reference is there, the schema of sales, and schemas whose parents are dealt in turn or drawn.

ghost use Rattle.std.specs.Prelude.{◌≡◌, ◌<◌, is_some, length, true};
ghost use Rattle.schema_facts.specs.References.{reference_at};
ghost use Rattle.life_intervals.specs.Generator.{rows_in_all, table_of};

use life_intervals::born;
use schema_plan::{Plan, ReadyKind};

/// Tells whether there is a table at a place with a row of an ordinal.
pub(crate) fn is_row(plan: &Plan, table: u32, row: u64) -> bool
    ensures table { result ≡ true → table < length plan.now.schema.tables }
    ensures row { result ≡ true → row < rows_in_all plan.now table }
{
    table < plan.tables() && row < born(plan, table, plan.units())
}

/// Tells whether the column after the key is a reference.
pub(crate) fn has_parents(plan: &Plan, table: u32) -> bool
    requires { table < length plan.now.schema.tables }
    ensures { result ≡ true → is_some (reference_at (table_of plan.now table) 1) ≡ true }
{
    let columns = plan.columns(table);
    columns.len() >= 2 && matches!(columns[1].kind, ReadyKind::Reference(_))
}

/// Customers, orders and lines. One customer is born at each unit, lives three units and changes every two. An order is of the oldest
/// customer of the last three units, shows when that customer was born, and would live nine units. A line is of the order of its own unit,
/// and has a label with the order's key and the order's customer.
pub(crate) const SALES: &str = r#"
seed = 7
units = 5
[[table]]
name = "customers"
rows = 1
insert = 1
life = [3, 3]
update = 2
column = [
    { name = "id", kind = "key", base = 1 },
    { name = "born", kind = "born" },
    { name = "changed", kind = "changed" },
]
[[table]]
name = "orders"
rows = 1
insert = 1
life = [9, 9]
column = [
    { name = "id", kind = "key", base = 1 },
    { name = "customer", kind = "ref", table = "customers", window = 2 },
    { name = "since", kind = "lookup", via = "customer", column = "born" },
]
[[table]]
name = "lines"
rows = 1
insert = 1
column = [
    { name = "id", kind = "key", base = 1 },
    { name = "order_id", kind = "ref", table = "orders", window = 0 },
    { name = "label", kind = "template", parts = ["o", { column = "order_id" }] },
    { name = "payer", kind = "lookup", via = "order_id", column = "customer" },
]
"#;

/// Ends a text that ends within the column of a reference. Its parents are dealt in turn.
pub(crate) const IN_TURN: &str = r#", deal = "turn" }]
"#;

/// Ends such a text. The reference's parents are dealt in a drawn order.
pub(crate) const DRAWN: &str = r#", deal = "drawn" }]
"#;

/// Five parents, and two children at each unit. The text ends within the column of the parent.
pub(crate) const FIVE_PARENTS: &str = r#"
seed = 2
units = 3
[[table]]
name = "p"
rows = 5
column = [{ name = "id", kind = "key", base = 1 }]
[[table]]
name = "c"
rows = 2
insert = 2
column = [
    { name = "id", kind = "key", base = 1 },
    { name = "p", kind = "ref", table = "p", window = "all""#;

/// A table of 2^40 rows in all that nothing ends or changes, and a small table that refers to it. The text ends within the column of the
/// parent.
pub(crate) const HUGE: &str = r#"
seed = 1
units = 1
[[table]]
name = "p"
rows = 1099511627775
insert = 1
column = [{ name = "id", kind = "key", base = 1 }]
[[table]]
name = "c"
rows = 1
insert = 1
column = [
    { name = "id", kind = "key", base = 1 },
    { name = "p", kind = "ref", table = "p", window = "all""#;

/// Customers as in the sales, and an order of one of the last three units' customers at each unit. The text ends within the column of the
/// customer.
pub(crate) const ORDERS: &str = r#"
seed = 7
units = 5
[[table]]
name = "customers"
rows = 1
insert = 1
life = [3, 3]
update = 2
column = [
    { name = "id", kind = "key", base = 1 },
    { name = "born", kind = "born" },
    { name = "changed", kind = "changed" },
]
[[table]]
name = "orders"
rows = 1
insert = 1
life = [9, 9]
column = [
    { name = "id", kind = "key", base = 1 },
    { name = "customer", kind = "ref", table = "customers", window = 2"#;
