//! What several tests need: a schema, plans, and texts that are joined.

use dictionaries::read_dictionary;
use schema_check::check;
use schema_facts::Dictionaries;
use schema_plan::Plan;
use schema_read::read_schema;
use std::alloc::Global;
use std::process::Abort;

/// Customers, one born at each unit, who live three units and change every two. Each order has the oldest customer of the last three units.
pub(crate) const SALES: &str = r#"
seed = 7
units = 5
[[table]]
name = "customer"
rows = 1
insert = 1
life = [3, 3]
update = 2
column = [
    { name = "id", kind = "key", base = 1 },
    { name = "born", kind = "born" },
    { name = "changed", kind = "changed" },
]
[[table]]
name = "orders"
rows = 1
insert = 1
life = [9, 9]
column = [
    { name = "id", kind = "key", base = 1 },
    { name = "customer", kind = "ref", table = "customer", window = 2 },
]
"#;

/// Two lines for each customer, with a quantity that is null half the time, a price, their product, the customer's birth, and what is drawn.
pub(crate) const BILLS: &str = r#"
seed = 1
name = "item"
parent = "customer"
lo = 2
hi = 2
column = [
    { name = "qty", kind = "int", lo = 1, hi = 9, null = 500 },
    { name = "price", kind = "fixed", lo = 250, hi = 250, decimals = 2 },
    { name = "total", kind = "product", of = ["qty", "price"] },
    { name = "born", kind = "parent", column = "born" },
    { name = "u", kind = "uuid" },
    { name = "word", kind = "dict", file = "one.txt" },
]
"#;

/// Returns the plan of a schema that is accepted.
pub(crate) fn plan_of(rt: &impl Abort, alloc: Global, text: &str) -> Plan {
    let schema = read_schema(alloc, text.as_bytes()).expect(rt, "no schema");
    check(alloc, schema, Dictionaries::new(alloc)).expect(rt, "no plan")
}

/// Makes word lists with these names and one entry each.
pub(crate) fn word_lists(rt: &impl Abort, alloc: Global, names: &[&str]) -> Dictionaries {
    let mut lists = Dictionaries::new(alloc);
    for name in names {
        let words = read_dictionary(alloc, b"Ann").expect(rt, "no word list");
        lists.push(name, words).expect(rt, "memory");
    }
    lists
}

/// Joins the pieces, one after the other.
pub(crate) fn joined(rt: &impl Abort, alloc: Global, pieces: &[&str]) -> String {
    pieces.concat(alloc).expect(rt, "memory")
}

/// Joins the numbers from 0 on, `count` of them, each between `front` and `end`.
pub(crate) fn numbered(
    rt: &impl Abort,
    alloc: Global,
    front: &str,
    count: usize,
    end: &str,
) -> String {
    let mut text = String::new(alloc);
    for number in 0..count {
        let piece = format!(in alloc; "{front}{number}{end}").expect(rt, "memory");
        text.push_str(piece.as_str()).expect(rt, "memory");
    }
    text
}
