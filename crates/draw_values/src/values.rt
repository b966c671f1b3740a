//! The value of one row in one column.

ghost use Rattle.std.specs.Prelude.{◌≡◌, ◌<◌, ◌≤◌, ◌+◌, ◌++◌, true, length};
ghost use Rattle.row_text.specs.Fields.{field_text};
ghost use Rattle.schema_facts.specs.Layout.{column_at, layout_of, table_at};
ghost use Rattle.draw_values.specs.ReadyValues.{row_draws};
ghost use Rattle.draw_values.specs.Values.{draws_at, is_own, put_of, size_at, value_at, written};

use crate::fields::{Drawn, chooser_of, put_field};
use line_pages::PageBuf;
use philox_seeds::{column_seed, table_seed, unit_seed};
use schema_plan::Plan;

/// A row, with what its values depend on.
#[derive(Clone, Copy, Debug, PartialEq, Eq)]
pub struct RowAt {
    /// The row's place in the order of birth in its table, from 0.
    pub ordinal: u64,
    /// The unit of the row's birth.
    pub born: u64,
    /// The unit of the row's last change; if it never changed, the unit of its birth.
    pub changed: u64,
}

/// What was put for a value.
#[derive(Clone, Copy, Debug, PartialEq, Eq)]
pub enum Put {
    /// The value's text.
    Text,
    /// Nothing: the value is null.
    Null,
}

/// Returns the seed from which a row's field is drawn in the column at a place.
fn drawn_seed(plan: &Plan, table: u32, place: usize, at: RowAt) -> u64
    requires table { table < length plan.now.schema.tables }
    requires column { place < length (table_at (layout_of plan.now).tables table).columns }
    ensures { row_draws result at.ordinal ≡ draws_at (layout_of plan.now) table at place }
{
    let columns = plan.columns(table);
    let unit = if columns[place].changes {
        at.changed
    } else {
        at.born
    };
    unit_seed(
        column_seed(table_seed(plan.seed(), table), place as u32),
        unit,
    )
}

/// Appends a row's field in a column of units, of drawn values, of cases or of entries in turn, as it is written. A null field
/// appends nothing. The greatest size of the column's fields must be free.
pub fn put_value(plan: &Plan, table: u32, column: u32, at: RowAt, buf: &mut PageBuf) -> Put
    requires table { table < length plan.now.schema.tables }
    requires column { column < length (table_at (layout_of plan.now).tables table).columns }
    requires own { is_own (column_at (table_at (layout_of plan.now).tables table).columns column).kind ≡ true }
    requires born { at.born ≤ (layout_of plan.now).units }
    requires changed { at.changed ≤ (layout_of plan.now).units }
    requires room { length buf.old.text + size_at (layout_of plan.now) table column ≤ buf.old.room }
    ensures put { result ≡ put_of (value_at (layout_of plan.now) table column at) }
    ensures text { buf.new ≡ record buf.old { text = buf.old.text ++ written (layout_of plan.now).delimiter (value_at (layout_of plan.now) table column at) } }
    ensures size { length (field_text (layout_of plan.now).delimiter (value_at (layout_of plan.now) table column at)) ≤ size_at (layout_of plan.now) table column }
{
    let columns = plan.columns(table);
    let own = &columns[column as usize];
    let chooser = chooser_of(column as usize, own);
    put_field(
        Drawn {
            column: own,
            seed: drawn_seed(plan, table, column as usize, at),
        },
        Drawn {
            column: &columns[chooser],
            seed: drawn_seed(plan, table, chooser, at),
        },
        at,
        buf,
    )
}
