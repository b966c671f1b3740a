//! Rows and references in a database.

use row_keeper::RefTo;
use sql_keeper::{Databases, MemoryDatabases, MemoryTables, RowTables};
use sqlite::{Alter, Connection};
use std::test::Fail;

// Returns the reference of an order to the customer with a key.
pub(crate) fn to_customer(key: u64) -> RefTo {
    RefTo {
        column: 1,
        table: 0,
        key,
    }
}

fn is_put(tables: &mut MemoryTables, table: u32, key: u64, refs: &[RefTo], line: &[u8]) -> bool {
    tables.put(table, key, refs, line).is_ok()
}

fn is_dropped(tables: &mut MemoryTables, table: u32, key: u64) -> bool {
    tables.drop_row(table, key).is_ok()
}

// Returns the number that a query answers.
pub(crate) fn number<S: Alter>(database: &mut Connection<S>, sql: &str) -> Option<i64> {
    database.query_row(sql, &[]).ok()?.get(0).ok()
}

// Two keys of a table that lie 2^40 apart: their rows would have the same number.
const NEAR: u64 = 1;

const FAR: u64 = 1_099_511_627_777;

// Tells whether all of these are refused: an order of a customer whose key is too far away; a customer with such a key; a row of a table that
// can't exist; a row with a reference in a column that can't exist; and an order whose customer is gone. The last is told only when its rows
// are put.
fn are_refused(tables: &mut MemoryTables) -> bool {
    let no_column = RefTo {
        column: 64,
        table: 0,
        key: NEAR,
    };
    !is_put(tables, 1, 3, &[to_customer(FAR)], b"no parent\n")
        && !is_put(tables, 0, FAR, &[], b"another one's number\n")
        && !is_put(tables, 64, NEAR, &[], b"no table\n")
        && !is_put(tables, 0, 3, &[no_column], b"no column\n")
        && tables.put_waiting().is_ok()
        && is_put(tables, 1, 2, &[to_customer(2)], b"no parent\n")
        && tables.put_waiting().is_err()
}

// Tells whether 150 customers are put, each before its own order. That is more than one statement takes. In between, one order leads to
// another customer.
fn are_put(tables: &mut MemoryTables) -> bool {
    let mut are_all = true;
    for key in 100..250u64 {
        are_all &= is_put(tables, 0, key, &[], b"many\n");
        are_all &= is_put(tables, 1, key, &[to_customer(key)], b"many\n");
    }
    are_all
        && is_put(tables, 1, 100, &[to_customer(101)], b"once\n")
        && is_put(tables, 1, 100, &[to_customer(100)], b"many\n")
        && tables.put_waiting().is_ok()
}

// A row takes the place of the row with its key, an order moves from one customer to another, and a customer isn't dropped before its orders.
// Keys within 2^40 of one another are told apart. No row is put or dropped in place of another with its number. There are 64 tables, of 64
// columns.
#[test]
fn rows_and_references_come_and_go(rt: HostRuntime) -> Result<(), Fail> {
    let Ok(mut tables) = MemoryDatabases::new(rt.alloc()).open("") else {
        panic!(rt; "it opens");
    };
    let done = (
        is_put(&mut tables, 0, NEAR, &[], b"old\n"),
        is_put(&mut tables, 0, NEAR, &[], b"new\n"),
        is_put(&mut tables, 0, 2, &[], b"gone\n"),
        is_put(&mut tables, 1, 1, &[to_customer(2)], b"old\n"),
    );
    let dropped_before_its_child = is_dropped(&mut tables, 0, 2);
    let led = is_put(&mut tables, 1, 1, &[to_customer(NEAR)], b"new\n");
    let dropped = is_dropped(&mut tables, 0, 2) && is_dropped(&mut tables, 0, FAR);
    let great = is_put(&mut tables, 63, 9_223_372_036_854_775_806, &[], b"great\n");
    assert_eq!(rt; done, (true, true, true, true));
    assert_eq!(rt;
        (dropped_before_its_child, led, dropped, great),
        (false, true, true, true)
    );
    assert!(rt; are_refused(&mut tables));
    assert!(rt; are_put(&mut tables));
    let mut database = tables.into_database();
    let rows =
        "SELECT count(*) FROM kept_row WHERE row_id IN (1, 1099511627777) AND line = x'6e65770a' OR row_id IN (2, 3, 70368744177662)";
    let leads = "SELECT parent_id FROM kept_reference WHERE reference_id = 70368744177729";
    let many = "SELECT count(*) FROM kept_row WHERE line = x'6d616e790a'";
    let own =
        "SELECT count(*) FROM kept_reference WHERE reference_id / 64 - 1099511627776 = parent_id";
    let references = "SELECT count(*) FROM kept_reference";
    let kept = (
        number(&mut database, rows),
        number(&mut database, leads),
        number(&mut database, many),
        number(&mut database, own),
        number(&mut database, references),
    );
    assert_eq!(rt; kept, (Some(3), Some(1), Some(300), Some(151), Some(151)));
    Ok(())
}
