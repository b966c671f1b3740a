//! A detail table as a table beside a schema, which the schema's rules and plans know.

ghost use Rattle.std.specs.Prelude.{◌≡◌, [], ◌∷◌, IfOk, pos};
ghost use Rattle.detail_plan.specs.Beside.{column_beside, columns_beside, kind_beside, reference_to, table_beside};

use crate::detail::{Detail, DetailColumn, DetailKind};
use out_of_memory::Memory;
use schema_model::{
    Column, Columns, Deal, Kind, Leaf, Longs, OnDelete, Phases, Table, Text, Texts, Window,
};
use std::alloc::Global;

fn copied_text(alloc: Global, text: &Text) -> Result<Text, Memory>
    ensures { IfOk result (λ copied. copied ≡ text.now) }
{
    Text::of(alloc, text.as_str())
}

fn copied_texts(alloc: Global, texts: &[Text]) -> Result<Texts, Memory>
    ensures { IfOk result (λ copied. copied ≡ texts.now) }
{
    let mut copied = Texts::new(alloc);
    for text in texts {
        copied.push(copied_text(alloc, text)?)?;
    }
    Ok(copied)
}

fn copied_numbers(alloc: Global, numbers: &[i64]) -> Result<Longs, Memory>
    ensures { IfOk result (λ copied. copied ≡ numbers.now) }
{
    let mut copied = Longs::new(alloc);
    for number in numbers {
        copied.push(*number)?;
    }
    Ok(copied)
}

/// Copies a value that is drawn for a field.
fn copied_leaf(alloc: Global, leaf: &Leaf) -> Result<Leaf, Memory>
    ensures { IfOk result (λ copied. copied ≡ leaf.now) }
{
    match leaf {
        Leaf::Int { lo, hi, step } => Ok(Leaf::Int {
            lo: *lo,
            hi: *hi,
            step: *step,
        }),
        Leaf::Fixed { lo, hi, decimals } => Ok(Leaf::Fixed {
            lo: *lo,
            hi: *hi,
            decimals: *decimals,
        }),
        Leaf::Date { lo, hi } => Ok(Leaf::Date { lo: *lo, hi: *hi }),
        Leaf::Pick { entries, weights } => {
            copied_pick(alloc, entries.as_slice(), weights.as_slice())
        }
        Leaf::Skew { lo, size, power } => Ok(Leaf::Skew {
            lo: *lo,
            size: *size,
            power: *power,
        }),
        Leaf::Dict { file } => Ok(Leaf::Dict {
            file: copied_text(alloc, file)?,
        }),
        Leaf::Words { file, lo, hi } => Ok(Leaf::Words {
            file: copied_text(alloc, file)?,
            lo: *lo,
            hi: *hi,
        }),
        Leaf::Chars { alphabet, lo, hi } => Ok(Leaf::Chars {
            alphabet: copied_text(alloc, alphabet)?,
            lo: *lo,
            hi: *hi,
        }),
        Leaf::Uuid => Ok(Leaf::Uuid),
    }
}

fn copied_pick(alloc: Global, entries: &[Text], weights: &[i64]) -> Result<Leaf, Memory>
    ensures { IfOk result (λ copied. copied ≡ Leaf.Pick entries.now weights.now) }
{
    let entries = copied_texts(alloc, entries)?;
    let weights = copied_numbers(alloc, weights)?;
    Ok(Leaf::Pick { entries, weights })
}

/// Returns what a column holds, as a schema has it. A column of the parent is a lookup by the reference.
fn kind_beside(alloc: Global, kind: &DetailKind) -> Result<Kind, Memory>
    ensures { IfOk result (λ made. made ≡ kind_beside kind.now) }
{
    match kind {
        DetailKind::Leaf(leaf) => Ok(Kind::Leaf(copied_leaf(alloc, leaf)?)),
        DetailKind::Parent { column } => Ok(Kind::Lookup {
            via: Text::new(alloc),
            column: copied_text(alloc, column)?,
        }),
        DetailKind::After { of, lo, hi } => Ok(Kind::After {
            of: copied_text(alloc, of)?,
            lo: *lo,
            hi: *hi,
        }),
        DetailKind::Sum { of } => Ok(Kind::Sum {
            of: copied_texts(alloc, of.as_slice())?,
        }),
        DetailKind::Product { of } => Ok(Kind::Product {
            of: copied_texts(alloc, of.as_slice())?,
        }),
    }
}

fn column_beside(alloc: Global, column: &DetailColumn) -> Result<Column, Memory>
    ensures { IfOk result (λ made. made ≡ column_beside column.now) }
{
    let name = copied_text(alloc, &column.name)?;
    let kind = kind_beside(alloc, &column.kind)?;
    Ok(Column {
        name,
        kind,
        changes: column.changes,
        null: column.null,
    })
}

/// Returns the spread of the reference: the one weight 1.
fn even_spread(alloc: Global) -> Result<Longs, Memory>
    ensures { IfOk result (λ spread. spread ≡ pos 1 ∷ []) }
{
    let mut spread = Longs::new(alloc);
    spread.push(1)?;
    Ok(spread)
}

/// Returns the reference to the parent, a column without a name.
fn reference_to(alloc: Global, parent: &Text) -> Result<Column, Memory>
    ensures { IfOk result (λ made. made ≡ reference_to parent.now) }
{
    let table = copied_text(alloc, parent)?;
    let spread = even_spread(alloc)?;
    Ok(Column {
        name: Text::new(alloc),
        kind: Kind::Ref {
            table,
            window: Window::All,
            spread,
            on_delete: OnDelete::Cascade,
            deal: Deal::Turn,
        },
        changes: false,
        null: 0,
    })
}

/// Returns the columns of a detail table, and after them the reference to its parent. Refuses if memory is wanting.
pub(crate) fn columns_beside(alloc: Global, detail: &Detail) -> Result<Columns, Memory>
    ensures { IfOk result (λ columns. columns ≡ columns_beside detail.now) }
{
    let mut columns = Columns::new(alloc);
    for column in detail.columns.as_slice() {
        columns.push(column_beside(alloc, column)?)?;
    }
    columns.push(reference_to(alloc, &detail.parent)?)?;
    Ok(columns)
}

/// Returns a detail table as a table beside a schema. Refuses if memory is wanting.
pub(crate) fn table_beside(alloc: Global, detail: &Detail) -> Result<Table, Memory>
    ensures { IfOk result (λ table. table ≡ table_beside detail.now) }
{
    let name = copied_text(alloc, &detail.name)?;
    let columns = columns_beside(alloc, detail)?;
    Ok(Table {
        name,
        rows: 0,
        insert: Phases::new(alloc),
        life: None,
        update: None,
        columns,
    })
}
