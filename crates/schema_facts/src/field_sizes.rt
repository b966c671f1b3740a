//! Field sizes: the most bytes that a field is written as.

ghost use Rattle.std.specs.Prelude.{◌≡◌, List, encode_utf8, map};
ghost use Rattle.std.specs.Str.{chars};
ghost use Rattle.schema_facts.specs.Capped.{capped};
ghost use Rattle.schema_facts.specs.Layout.{column_at, column_layout, columns_of, kind_layout, leaf_layout, part_layout, place_of_column, table_at, table_layouts};
ghost use Rattle.schema_facts.specs.FieldSizes.{greatest_by, joined_size, leaf_size, or_null, size_alone, size_at, size_in_table, size_of, size_of_part, size_of_parts, written_size};
ghost use Rattle.schema_model.specs.declared.column.Column.{Column};
ghost use Rattle.schema_model.specs.declared.table.Table.{Table};

use crate::counts::count;
use crate::limits::MAX_WIDTH;
use crate::places::{parent_via, place_of_column};
use crate::word_lists::Dictionaries;
use row_text::field_size;
use schema_model::{Column, Kind, Leaf, Part, Table, Text};

/// The greatest length of a key number, in bytes.
const KEY_SIZE: u64 = 20;

/// The greatest length of a whole number of 64 bits with its sign, in bytes.
const WHOLE_SIZE: u64 = 20;

/// The greatest length of a whole number of 64 bits with its sign and a point, in bytes.
const FIXED_SIZE: u64 = 21;

/// The length of a date, in bytes.
const DATE_SIZE: u64 = 10;

/// The length of a UUID, in bytes.
const UUID_SIZE: u64 = 36;

/// The greatest length of a unit, in bytes.
const UNIT_SIZE: u64 = 5;

/// The length of a null field, in bytes. No bound on a field's size is less.
const NULL_SIZE: u64 = 2;

/// Returns the size of a field that is null or has this size.
fn or_null(size: u64) -> u64
    ensures { result ≡ or_null size }
{
    size.max(NULL_SIZE)
}

/// Returns the size of a text as it is written, in bytes.
pub(crate) fn written_size(delimiter: u8, bytes: &[u8]) -> u64
    ensures { result ≡ written_size delimiter bytes.now }
{
    field_size(Some(bytes), delimiter) as u64
}

/// Returns the greatest size of an entry as it is written, in bytes.
fn greatest_entry(delimiter: u8, entries: &[Text]) -> u64
    ensures { result ≡ greatest_by (written_size delimiter) entries.now }
{
    let mut most = 0;
    for entry in entries {
        most = most.max(written_size(delimiter, entry.as_str().as_bytes()));
    }
    most
}

/// Returns the greatest size of a character of an alphabet as it is written, in bytes.
fn greatest_character(delimiter: u8, alphabet: &str) -> u64
    ensures { result ≡ greatest_by (λ c. written_size delimiter (encode_utf8 c)) (chars alphabet.now) }
{
    alphabet
        .chars()
        .fold(0, |most: u64, c| most.max(character_size(delimiter, c)))
}

/// Returns the size of a character as it is written, in bytes.
fn character_size(delimiter: u8, c: char) -> u64
    ensures { result ≡ written_size delimiter (encode_utf8 c) }
{
    let mut bytes = [0; 4];
    written_size(delimiter, c.encode_utf8(&mut bytes).as_bytes())
}

/// Returns the greatest size of a drawn value as it is written, in bytes.
fn leaf_size(delimiter: u8, dictionaries: &Dictionaries, leaf: &Leaf) -> u64
    ensures { result ≡ capped (leaf_size delimiter (leaf_layout dictionaries.now leaf.now)) }
{
    match leaf {
        Leaf::Int { .. } | Leaf::Skew { .. } => WHOLE_SIZE,
        Leaf::Fixed { .. } => FIXED_SIZE,
        Leaf::Date { .. } => DATE_SIZE,
        Leaf::Pick { entries, .. } => greatest_entry(delimiter, entries.as_slice()),
        Leaf::Dict { file } => dictionaries.entry_size(delimiter, file.as_str()),
        Leaf::Words { file, hi, .. } => {
            joined_size(
                count(*hi),
                dictionaries.entry_size(delimiter, file.as_str()),
            )
        }
        Leaf::Chars { alphabet, hi, .. } => {
            count(*hi).saturating_mul(greatest_character(delimiter, alphabet.as_str()))
        }
        Leaf::Uuid => UUID_SIZE,
    }
}

/// Returns the size of some items of at most `size` bytes each, with a byte between each two.
fn joined_size(items: u64, size: u64) -> u64
    ensures { result ≡ capped (joined_size items size) }
{
    items
        .saturating_mul(size)
        .saturating_add(items.saturating_sub(1))
}

/// Returns the greatest size of any of some drawn values as it is written, in bytes.
fn greatest_leaf(delimiter: u8, dictionaries: &Dictionaries, leaves: &[Leaf]) -> u64
    ensures { result ≡ capped (greatest_by (leaf_size delimiter) (map (leaf_layout dictionaries.now) leaves.now)) }
{
    let mut most = 0;
    for leaf in leaves {
        most = most.max(leaf_size(delimiter, dictionaries, leaf));
    }
    most
}

/// Returns the size of a field that shows no other column. A template or a lookup gives that of a null field.
fn size_alone(delimiter: u8, dictionaries: &Dictionaries, kind: &Kind) -> u64
    ensures { (tables : List Table) (columns : List Column) →
        result ≡ capped (size_alone delimiter (kind_layout dictionaries.now tables columns kind.now)) }
{
    match kind {
        Kind::Key { .. } | Kind::Ref { .. } => KEY_SIZE,
        Kind::Born | Kind::Changed => UNIT_SIZE,
        Kind::Leaf(leaf) => or_null(leaf_size(delimiter, dictionaries, leaf)),
        Kind::Case { branches, .. } => {
            or_null(greatest_leaf(delimiter, dictionaries, branches.as_slice()))
        }
        Kind::Template { .. } | Kind::Lookup { .. } => or_null(0),
        Kind::List { file } => or_null(dictionaries.entry_size(delimiter, file.as_str())),
        Kind::BornDate { .. } | Kind::ChangedDate { .. } | Kind::After { .. } => DATE_SIZE,
        Kind::Sum { .. } | Kind::Product { .. } => FIXED_SIZE,
    }
}

/// Returns the size of the column at a place, if it shows no other column. Otherwise it returns that of a null field.
fn size_alone_at(
    delimiter: u8,
    dictionaries: &Dictionaries,
    columns: &[Column],
    place: usize,
) -> u64
    ensures { (tables : List Table) →
        result ≡ capped (size_alone delimiter (column_at (map (column_layout dictionaries.now tables columns.now) columns.now) place).kind) }
{
    if place < columns.len() {
        size_alone(delimiter, dictionaries, &columns[place].kind)
    } else {
        or_null(0)
    }
}

/// Returns the size of a part of a template. The columns are those of its table.
fn size_of_part(delimiter: u8, dictionaries: &Dictionaries, columns: &[Column], part: &Part) -> u64
    ensures { (tables : List Table) →
        result ≡ capped (size_of_part delimiter (map (column_layout dictionaries.now tables columns.now) columns.now) (part_layout columns.now part.now)) }
{
    match part {
        Part::Literal(text) => written_size(delimiter, text.as_str().as_bytes()),
        Part::Cited(name) => {
            size_alone_at(
                delimiter,
                dictionaries,
                columns,
                place_of_column(columns, name),
            )
        }
        Part::Padded { column, width } => {
            let place = place_of_column(columns, column);
            let cited = size_alone_at(delimiter, dictionaries, columns, place);
            cited.max(count(*width).min(count(MAX_WIDTH)))
        }
    }
}

/// Returns the size of all parts of a template together. The columns are those of its table.
fn size_of_parts(
    delimiter: u8,
    dictionaries: &Dictionaries,
    columns: &[Column],
    parts: &[Part],
) -> u64
    ensures { (tables : List Table) →
        result ≡ capped (size_of_parts delimiter (map (column_layout dictionaries.now tables columns.now) columns.now) (map (part_layout columns.now) parts.now)) }
{
    let mut size: u64 = 0;
    for part in parts {
        size = size.saturating_add(size_of_part(delimiter, dictionaries, columns, part));
    }
    or_null(size)
}

/// Returns the size of a field that shows no other table. The columns are those of its table.
fn size_in_table(delimiter: u8, dictionaries: &Dictionaries, columns: &[Column], kind: &Kind) -> u64
    ensures { (tables : List Table) →
        result ≡ capped (size_in_table delimiter (map (column_layout dictionaries.now tables columns.now) columns.now) (kind_layout dictionaries.now tables columns.now kind.now)) }
{
    match kind {
        Kind::Template { parts } => {
            size_of_parts(delimiter, dictionaries, columns, parts.as_slice())
        }
        _ => size_alone(delimiter, dictionaries, kind),
    }
}

/// Returns the size of the named column in the table at a place.
fn size_of_named(
    delimiter: u8,
    dictionaries: &Dictionaries,
    tables: &[Table],
    table: usize,
    name: &Text,
) -> u64
    ensures { result ≡ capped (size_at delimiter (table_at (table_layouts dictionaries.now tables.now) table).columns (place_of_column (columns_of tables.now table) name.now)) }
{
    if table >= tables.len() {
        return or_null(0);
    }
    let columns = tables[table].columns.as_slice();
    let column = place_of_column(columns, name);
    if column < columns.len() {
        size_in_table(delimiter, dictionaries, columns, &columns[column].kind)
    } else {
        or_null(0)
    }
}

/// Returns the size of a field. A lookup takes what the parent's field takes. The columns are those of its table.
pub fn size_of(
    delimiter: u8,
    dictionaries: &Dictionaries,
    tables: &[Table],
    columns: &[Column],
    kind: &Kind,
) -> u64
    ensures { result ≡ capped (size_of delimiter (table_layouts dictionaries.now tables.now) (map (column_layout dictionaries.now tables.now columns.now) columns.now)
        (kind_layout dictionaries.now tables.now columns.now kind.now)) }
{
    match kind {
        Kind::Lookup { via, column } => {
            let parent = parent_via(tables, columns, via);
            size_of_named(delimiter, dictionaries, tables, parent, column)
        }
        _ => size_in_table(delimiter, dictionaries, columns, kind),
    }
}
