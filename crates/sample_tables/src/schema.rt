//! A sample's schema.

ghost use Rattle.std.specs.Prelude.{◌≡◌, ◌≤◌, ◌<◌, ◌^◌, ◌*◌, ◌∷◌, [], IfOk, pos};
ghost use Rattle.sample_tables.specs.Schema.{at_each_unit, customer, key, order_lines, orders, plain, reference, sample_of, score};

use out_of_memory::Memory;
use schema_model::{
    Column, Columns, Deal, Delimiter, Kind, Leaf, Life, Longs, OnDelete, Phase, Phases, Schema,
    Table, Tables, Text, Window,
};
use std::alloc::Global;

/// The first key of each table.
const FIRST_KEY: i64 = 1_000_000_000;

/// The first day of 2024, where day 0 is 1970-01-01.
const FIRST_DAY: i32 = 19_723;

/// The last day of 2024, where day 0 is 1970-01-01.
const LAST_DAY: i32 = 20_088;

/// Makes the schema of a size. Refuses if memory is wanting.
pub(crate) fn sample_of(alloc: Global, size: u64) -> Result<Schema, Memory>
    requires { size ≤ 1000 }
    ensures { IfOk result (λ schema. schema ≡ sample_of size) }
{
    let mut tables = Tables::new(alloc);
    tables.push(customer(alloc, size)?)?;
    tables.push(orders(alloc, size)?)?;
    tables.push(order_lines(alloc, size)?)?;
    Ok(Schema {
        seed: long(size),
        units: 4,
        delimiter: Delimiter::Tab,
        tables,
    })
}

/// Returns a number as a signed one.
fn long(number: u64) -> i64
    requires { number < 2 ^ 63 }
    ensures { result ≡ pos number }
{
    number as i64
}

/// Makes the table of customers.
fn customer(alloc: Global, size: u64) -> Result<Table, Memory>
    requires { size ≤ 1000 }
    ensures { IfOk result (λ table. table ≡ customer size) }
{
    let alphabet = Text::of(alloc, "abcdefgh")?;
    let name = Kind::Leaf(Leaf::Chars {
        alphabet,
        lo: 8,
        hi: 8,
    });
    let mut columns = Columns::new(alloc);
    columns.push(key(alloc)?)?;
    columns.push(plain(alloc, "name", name)?)?;
    columns.push(score(alloc)?)?;
    Ok(Table {
        name: Text::of(alloc, "customer")?,
        rows: long(100 * size),
        insert: at_each_unit(alloc, 10 * size)?,
        life: Some(Life { lo: 2, hi: 11 }),
        update: Some(1),
        columns,
    })
}

/// Makes the table of orders.
fn orders(alloc: Global, size: u64) -> Result<Table, Memory>
    requires { size ≤ 1000 }
    ensures { IfOk result (λ table. table ≡ orders size) }
{
    let mut columns = Columns::new(alloc);
    columns.push(key(alloc)?)?;
    columns.push(reference(alloc, "customer", "customer")?)?;
    columns.push(plain(alloc, "placed", Kind::Born)?)?;
    Ok(Table {
        name: Text::of(alloc, "orders")?,
        rows: long(300 * size),
        insert: at_each_unit(alloc, 30 * size)?,
        life: None,
        update: None,
        columns,
    })
}

/// Makes the table of the lines of orders.
fn order_lines(alloc: Global, size: u64) -> Result<Table, Memory>
    requires { size ≤ 1000 }
    ensures { IfOk result (λ table. table ≡ order_lines size) }
{
    let due = Kind::Leaf(Leaf::Date {
        lo: FIRST_DAY,
        hi: LAST_DAY,
    });
    let mut columns = Columns::new(alloc);
    columns.push(key(alloc)?)?;
    columns.push(reference(alloc, "order_id", "orders")?)?;
    columns.push(plain(alloc, "due", due)?)?;
    Ok(Table {
        name: Text::of(alloc, "lines")?,
        rows: long(600 * size),
        insert: at_each_unit(alloc, 60 * size)?,
        life: None,
        update: None,
        columns,
    })
}

/// Makes one phase: so many rows are born at each unit after the first.
fn at_each_unit(alloc: Global, rows: u64) -> Result<Phases, Memory>
    requires { rows < 2 ^ 63 }
    ensures { IfOk result (λ phases. phases ≡ at_each_unit rows) }
{
    let mut phases = Phases::new(alloc);
    phases.push(Phase {
        from: 1,
        rate: long(rows),
    })?;
    Ok(phases)
}

/// Makes a column that neither changes nor is null.
fn plain(alloc: Global, name: &str, kind: Kind) -> Result<Column, Memory>
    ensures { IfOk result (λ column. column ≡ plain name.now kind) }
{
    Ok(Column {
        name: Text::of(alloc, name)?,
        kind,
        changes: false,
        null: 0,
    })
}

/// Makes the key of a table.
fn key(alloc: Global) -> Result<Column, Memory>
    ensures { IfOk result (λ column. column ≡ key) }
{
    let kind = Kind::Key {
        base: FIRST_KEY,
        scramble: true,
    };
    plain(alloc, "id", kind)
}

/// Makes a reference to the rows of a table that are born at the same unit.
fn reference(alloc: Global, name: &str, table: &str) -> Result<Column, Memory>
    ensures { IfOk result (λ column. column ≡ reference name.now table.now) }
{
    let mut spread = Longs::new(alloc);
    spread.push(1)?;
    let kind = Kind::Ref {
        table: Text::of(alloc, table)?,
        window: Window::Units(0),
        spread,
        on_delete: OnDelete::Cascade,
        deal: Deal::Turn,
    };
    plain(alloc, name, kind)
}

/// Makes the scores of customers. They are drawn anew when the customer changes.
fn score(alloc: Global) -> Result<Column, Memory>
    ensures { IfOk result (λ column. column ≡ score) }
{
    Ok(Column {
        name: Text::of(alloc, "score")?,
        kind: Kind::Leaf(Leaf::Int {
            lo: 100,
            hi: 999,
            step: 1,
        }),
        changes: true,
        null: 0,
    })
}
