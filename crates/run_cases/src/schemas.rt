//! The schemas that runs are given.

/// A table with a row at each unit: its key, counted from 1, and its birth unit.
pub const ONE: &str = r#"seed = 1
units = 2
[[table]]
name = "t"
rows = 1
insert = 1
[[table.column]]
name = "id"
kind = "key"
base = 1
[[table.column]]
name = "born"
kind = "born"
"#;

/// The table of `ONE` with a column of words.
pub const ONE_CITING: &str = r#"seed = 1
units = 2
[[table]]
name = "t"
rows = 1
insert = 1
[[table.column]]
name = "id"
kind = "key"
base = 1
[[table.column]]
name = "born"
kind = "born"
[[table.column]]
name = "w"
kind = "dict"
file = "names.txt"
"#;

/// The table of `ONE` with scrambled keys. They stay in place in cohorts of one row.
pub const ONE_SCRAMBLED: &str = r#"seed = 1
units = 2
[[table]]
name = "t"
rows = 1
insert = 1
[[table.column]]
name = "id"
kind = "key"
base = 1
scramble = true
[[table.column]]
name = "born"
kind = "born"
"#;

/// Three tables: one with only keys, one with a row at the first unit only, and one with rows from the second unit on.
pub const THREE: &str = r#"seed = 5
units = 1
[[table]]
name = "a"
rows = 2
insert = 1
[[table.column]]
name = "id"
kind = "key"
base = 1
[[table]]
name = "b"
rows = 1
[[table.column]]
name = "id"
kind = "key"
base = 10
[[table.column]]
name = "at"
kind = "born"
[[table]]
name = "c"
rows = 0
insert = 2
[[table.column]]
name = "id"
kind = "key"
base = 0
[[table.column]]
name = "at"
kind = "born"
"#;

/// A table with no row at any unit.
pub const EMPTY: &str = r#"seed = 1
units = 2
[[table]]
name = "t"
rows = 0
[[table.column]]
name = "id"
kind = "key"
base = 1
"#;

/// More rows than a table can have.
pub const TOO_MANY_ROWS: &str = r#"seed = 1
units = 2
[[table]]
name = "t"
rows = 1099511627777
[[table.column]]
name = "id"
kind = "key"
base = 1
"#;

/// As many rows as a table can have.
pub const MOST_ROWS: &str = r#"seed = 1
units = 0
[[table]]
name = "t"
rows = 1099511627776
[[table.column]]
name = "id"
kind = "key"
base = 1
"#;

/// A row at each unit that lives for two units.
pub const MORTAL: &str = r#"seed = 1
units = 2
[[table]]
name = "t"
rows = 1
insert = 1
life = [2, 2]
[[table.column]]
name = "id"
kind = "key"
base = 1
[[table.column]]
name = "born"
kind = "born"
"#;

/// A row at each unit that lives for four units, and changes at the ages of one and three units. The one row of a cohort has the
/// first place.
pub const CHANGING: &str = r#"seed = 1
units = 4
[[table]]
name = "t"
rows = 1
insert = 1
life = [4, 4]
update = 2
[[table.column]]
name = "id"
kind = "key"
base = 1
[[table.column]]
name = "born"
kind = "born"
[[table.column]]
name = "changed"
kind = "changed"
"#;

/// Customers live three units and change every two. Orders live nine units, or as long as their customer. That is the oldest
/// customer born with the order or in the two units before.
pub const TRADE: &str = r#"seed = 7
units = 5
[[table]]
name = "customer"
rows = 1
insert = 1
life = [3, 3]
update = 2
[[table.column]]
name = "id"
kind = "key"
base = 1
[[table.column]]
name = "born"
kind = "born"
[[table.column]]
name = "changed"
kind = "changed"
[[table]]
name = "orders"
rows = 1
insert = 1
life = [9, 9]
[[table.column]]
name = "id"
kind = "key"
base = 1
[[table.column]]
name = "customer"
kind = "ref"
table = "customer"
window = 2
"#;

/// Customers live three units and change every two. Orders live nine units, or as long as their customer. That is the oldest
/// customer born with the order or in the two units before. A line lives as long as the order that is born with it. The one row of
/// a cohort has the first place.
pub const SALES: &str = r#"seed = 7
units = 5
[[table]]
name = "customer"
rows = 1
insert = 1
life = [3, 3]
update = 2
[[table.column]]
name = "id"
kind = "key"
base = 1
[[table.column]]
name = "born"
kind = "born"
[[table.column]]
name = "changed"
kind = "changed"
[[table]]
name = "orders"
rows = 1
insert = 1
life = [9, 9]
[[table.column]]
name = "id"
kind = "key"
base = 1
[[table.column]]
name = "customer"
kind = "ref"
table = "customer"
window = 2
[[table]]
name = "lines"
rows = 1
insert = 1
[[table.column]]
name = "id"
kind = "key"
base = 1
[[table.column]]
name = "order_id"
kind = "ref"
table = "orders"
window = 0
"#;

/// An order that can be born when its customer is gone: the window is as long as the sure life.
pub const WINDOW_TOO_LONG: &str = r#"seed = 7
units = 5
[[table]]
name = "customer"
rows = 1
insert = 1
life = [3, 3]
[[table.column]]
name = "id"
kind = "key"
base = 1
[[table]]
name = "orders"
rows = 1
[[table.column]]
name = "id"
kind = "key"
base = 1
[[table.column]]
name = "customer"
kind = "ref"
table = "customer"
window = 3
"#;

/// Rows without a parent to refer to at unit 0.
pub const NO_PARENT: &str = r#"seed = 1
units = 1
[[table]]
name = "p"
rows = 0
insert = 1
[[table.column]]
name = "id"
kind = "key"
base = 1
[[table]]
name = "c"
rows = 1
[[table.column]]
name = "id"
kind = "key"
base = 1
[[table.column]]
name = "p"
kind = "ref"
table = "p"
window = 1
"#;

/// A lookup by a column that is no reference.
pub const SHOWING: &str = r#"seed = 1
units = 2
[[table]]
name = "t"
rows = 1
[[table.column]]
name = "id"
kind = "key"
base = 1
[[table.column]]
name = "shown"
kind = "lookup"
via = "id"
column = "id"
"#;

/// A lookup by a column that is no reference, and more rows than a table can have. Of two broken rules the first is told.
pub const SHOWING_AND_TOO_MANY_ROWS: &str = r#"seed = 1
units = 2
[[table]]
name = "t"
rows = 1099511627777
[[table.column]]
name = "id"
kind = "key"
base = 1
[[table.column]]
name = "shown"
kind = "lookup"
via = "id"
column = "id"
"#;

/// More rows than a table can have, and no unit 2. A broken rule is told before a unit past the last.
pub const TOO_MANY_ROWS_TO_UNIT_1: &str = r#"seed = 1
units = 1
[[table]]
name = "t"
rows = 1099511627777
[[table.column]]
name = "id"
kind = "key"
base = 1
"#;

/// A table with a row at each unit. Its last three fields are drawn from two dictionaries, the first of which is cited twice.
pub const CITING: &str = r#"seed = 1
units = 2
[[table]]
name = "t"
rows = 1
insert = 1
[[table.column]]
name = "id"
kind = "key"
base = 1
[[table.column]]
name = "first"
kind = "dict"
file = "n"
[[table.column]]
name = "second"
kind = "words"
file = "m"
lo = 2
hi = 2
[[table.column]]
name = "third"
kind = "dict"
file = "n"
"#;

/// A dictionary that no schema can cite, and more rows than a table can have.
pub const CITING_NO_NAME: &str = r#"seed = 1
units = 2
[[table]]
name = "t"
rows = 1099511627777
[[table.column]]
name = "id"
kind = "key"
base = 1
[[table.column]]
name = "first"
kind = "dict"
file = "n"
[[table.column]]
name = "second"
kind = "dict"
file = ""
"#;

/// More rows than a table can have, beside a dictionary.
pub const CITING_TOO_MANY_ROWS: &str = r#"seed = 1
units = 2
[[table]]
name = "t"
rows = 1099511627777
[[table.column]]
name = "id"
kind = "key"
base = 1
[[table.column]]
name = "first"
kind = "dict"
file = "n"
"#;

/// A table of one row, and one of 1,000 rows at unit 0 and 10 rows at each later unit. The second has scrambled keys from 1, and
/// birth units. Its cohorts are large enough for tables of their order.
pub const THOUSAND: &str = r#"seed = 7
units = 5
[[table]]
name = "s"
rows = 1
[[table.column]]
name = "id"
kind = "key"
base = 1
[[table]]
name = "t"
rows = 1000
insert = 10
[[table.column]]
name = "id"
kind = "key"
base = 1
scramble = true
[[table.column]]
name = "born"
kind = "born"
"#;

/// A table whose rows live for two to five units, with a column of each sort that changes and of each sort that doesn't.
pub const LIVING: &str = r#"seed = 7
units = 6
[[table]]
name = "t"
rows = 300
insert = 20
life = [2, 5]
update = 3
[[table.column]]
name = "id"
kind = "key"
base = 1
scramble = true
[[table.column]]
name = "born"
kind = "born"
[[table.column]]
name = "at"
kind = "changed"
null = 100
[[table.column]]
name = "amount"
kind = "int"
lo = 1
hi = 1000
changes = true
[[table.column]]
name = "kept"
kind = "int"
lo = 1
hi = 1000
[[table.column]]
name = "mood"
kind = "pick"
entries = ["a", "b", "c"]
null = 50
[[table.column]]
name = "note"
kind = "case"
on = "mood"
branches = [{ kind = "int", lo = 1, hi = 9 }, { kind = "chars", alphabet = "xyz", lo = 1, hi = 4 }, { kind = "date", lo = "2024-01-01", hi = "2024-12-31" }]
changes = true
[[table.column]]
name = "label"
kind = "template"
parts = ["x", { column = "amount" }, "/", { column = "id" }]
changes = true
null = 100
"#;

/// Lines refer to orders and to products, and orders to customers of regions. Rows die with their parents, up to three tables
/// above.
pub const FIVE: &str = r#"seed = 11
units = 5

[[table]]
name = "region"
rows = 3
insert = 1
life = [4, 6]
update = 3
[[table.column]]
name = "id"
kind = "key"
base = 1
scramble = true
[[table.column]]
name = "at"
kind = "changed"

[[table]]
name = "customer"
rows = 5
insert = 2
life = [3, 5]
update = 2
[[table.column]]
name = "id"
kind = "key"
base = 100
scramble = true
[[table.column]]
name = "region"
kind = "ref"
table = "region"
window = 2
[[table.column]]
name = "balance"
kind = "fixed"
lo = -999
hi = 9999
decimals = 2
changes = true

[[table]]
name = "product"
rows = 4
insert = 1
life = [3, 4]
[[table.column]]
name = "id"
kind = "key"
base = 50
[[table.column]]
name = "name"
kind = "pick"
entries = ["bolt", "nut", "gear"]

[[table]]
name = "orders"
rows = 6
insert = 4
life = [2, 9]
update = 3
[[table.column]]
name = "id"
kind = "key"
base = 1000
scramble = true
[[table.column]]
name = "customer"
kind = "ref"
table = "customer"
window = 1
spread = [1, 2, 3]
[[table.column]]
name = "at"
kind = "changed"

[[table]]
name = "lines"
rows = 9
insert = 7
update = 1
[[table.column]]
name = "id"
kind = "key"
base = 1
[[table.column]]
name = "order_id"
kind = "ref"
table = "orders"
window = 0
[[table.column]]
name = "product"
kind = "ref"
table = "product"
window = 1
spread = [3, 1]
[[table.column]]
name = "label"
kind = "template"
parts = [{ column = "order_id" }, "/", { column = "product" }]
[[table.column]]
name = "amount"
kind = "int"
lo = 1
hi = 20
changes = true
"#;
