//! The text of a sample's schema.

ghost use Rattle.std.specs.Prelude.{◌≡◌, ◌≤◌, ◌++◌, IfOk, OnOk};
ghost use Rattle.sample_tables.specs.Text.{column_head, customer_text, key_text, lines_text, number_line, orders_text, reference_text, schema_text, table_head, text_line};

use itoa::Buffer;
use out_of_memory::Memory;
use std::alloc::Global;

/// Makes the text of the schema of a size from 1 to 1,000. For each 1 of the size there are 100 customers at unit 0, and 10 more at each of
/// four later units. There are three times as many orders, and six times as many lines of orders.
pub fn sample_schema(alloc: Global, size: u64) -> Result<Vec<u8>, Memory>
    requires some { 1 ≤ size }
    requires limit { size ≤ 1000 }
    ensures { IfOk result (λ text. text.items ≡ schema_text size) }
{
    let mut text = Vec::new(alloc);
    push_number(&mut text, b"seed", size)?;
    text.extend_from_slice(b"units = 4\n")?;
    push_customer(&mut text, size)?;
    push_orders(&mut text, size)?;
    push_lines(&mut text, size)?;
    Ok(text)
}

/// Appends the table of customers.
fn push_customer(text: &mut Vec<u8>, size: u64) -> Result<(), Memory>
    requires { size ≤ 1000 }
    ensures { OnOk result (text.new.items ≡ text.old.items ++ customer_text size) }
{
    push_table(text, b"customer", 100 * size, 10 * size)?;
    text.extend_from_slice(b"life = [2, 11]\nupdate = 1\n")?;
    push_key(text)?;
    push_column(text, b"name", b"chars")?;
    text.extend_from_slice(b"alphabet = \"abcdefgh\"\nlo = 8\nhi = 8\n")?;
    push_column(text, b"score", b"int")?;
    text.extend_from_slice(b"lo = 100\nhi = 999\nchanges = true\n")?;
    Ok(())
}

/// Appends the table of orders.
fn push_orders(text: &mut Vec<u8>, size: u64) -> Result<(), Memory>
    requires { size ≤ 1000 }
    ensures { OnOk result (text.new.items ≡ text.old.items ++ orders_text size) }
{
    push_table(text, b"orders", 300 * size, 30 * size)?;
    push_key(text)?;
    push_reference(text, b"customer", b"customer")?;
    push_column(text, b"placed", b"born")
}

/// Appends the table of the lines of orders.
fn push_lines(text: &mut Vec<u8>, size: u64) -> Result<(), Memory>
    requires { size ≤ 1000 }
    ensures { OnOk result (text.new.items ≡ text.old.items ++ lines_text size) }
{
    push_table(text, b"lines", 600 * size, 60 * size)?;
    push_key(text)?;
    push_reference(text, b"order_id", b"orders")?;
    push_column(text, b"due", b"date")?;
    text.extend_from_slice(b"lo = \"2024-01-01\"\nhi = \"2024-12-31\"\n")?;
    Ok(())
}

/// Appends an empty line and the beginning of a table.
fn push_table(text: &mut Vec<u8>, name: &[u8], rows: u64, insert: u64) -> Result<(), Memory>
    ensures { OnOk result (text.new.items ≡ text.old.items ++ table_head name.now rows insert) }
{
    text.extend_from_slice(b"\n[[table]]\n")?;
    push_text(text, b"name", name)?;
    push_number(text, b"rows", rows)?;
    push_number(text, b"insert", insert)
}

/// Appends the beginning of a column.
fn push_column(text: &mut Vec<u8>, name: &[u8], kind: &[u8]) -> Result<(), Memory>
    ensures { OnOk result (text.new.items ≡ text.old.items ++ column_head name.now kind.now) }
{
    text.extend_from_slice(b"[[table.column]]\n")?;
    push_text(text, b"name", name)?;
    push_text(text, b"kind", kind)
}

/// Appends the key of a table.
fn push_key(text: &mut Vec<u8>) -> Result<(), Memory>
    ensures { OnOk result (text.new.items ≡ text.old.items ++ key_text) }
{
    push_column(text, b"id", b"key")?;
    text.extend_from_slice(b"base = 1000000000\nscramble = true\n")?;
    Ok(())
}

/// Appends a reference to the rows of a table that are born at the same unit.
fn push_reference(text: &mut Vec<u8>, name: &[u8], table: &[u8]) -> Result<(), Memory>
    ensures { OnOk result (text.new.items ≡ text.old.items ++ reference_text name.now table.now) }
{
    push_column(text, name, b"ref")?;
    push_text(text, b"table", table)?;
    text.extend_from_slice(b"window = 0\n")?;
    Ok(())
}

/// Appends a line of a key and a number.
fn push_number(text: &mut Vec<u8>, key: &[u8], number: u64) -> Result<(), Memory>
    ensures { OnOk result (text.new.items ≡ text.old.items ++ number_line key.now number) }
{
    let mut digits = Buffer::new();
    text.extend_from_slice(key)?;
    text.extend_from_slice(b" = ")?;
    text.extend_from_slice(digits.format(number).as_bytes())?;
    text.push(b'\n')?;
    Ok(())
}

/// Appends a line of a key and a text in quotes.
fn push_text(text: &mut Vec<u8>, key: &[u8], value: &[u8]) -> Result<(), Memory>
    ensures { OnOk result (text.new.items ≡ text.old.items ++ text_line key.now value.now) }
{
    text.extend_from_slice(key)?;
    text.extend_from_slice(b" = \"")?;
    text.extend_from_slice(value)?;
    text.extend_from_slice(b"\"\n")?;
    Ok(())
}
