//! A store over a database in memory.

use crate::tables::to_customer;
use row_keeper::Keeper;
use sql_keeper::{MemoryDatabases, SqlKeeper};
use std::test::Fail;

// A store is finished and then isn't open. In the next one a statement is refused, so no other is made, and nothing is committed.
#[test]
fn a_store_is_finished_where_no_statement_was_refused(rt: HostRuntime) -> Result<(), Fail> {
    let mut keeper = SqlKeeper::new(MemoryDatabases::new(rt.alloc()));
    if keeper.start(":memory:").is_err() {
        panic!(rt; "it starts");
    }
    let put = keeper.put(0, 1, &[], b"1\t0\n").is_ok();
    if keeper.finish().is_err() {
        panic!(rt; "it is finished");
    }
    if keeper.start(":memory:").is_err() {
        panic!(rt; "it starts again");
    }
    let put_first = keeper.put(1, 1, &[to_customer(1)], b"1\t1\n").is_ok();
    let put_then = keeper.put(0, 1, &[], b"1\t0\n").is_ok();
    let finished = keeper.finish().is_ok();
    assert_eq!(rt;
        (put, put_first, put_then, finished),
        (true, false, false, false)
    );
    Ok(())
}
