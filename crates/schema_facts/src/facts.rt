//! The facts of a table, which don't change from row to row.

ghost use Rattle.std.specs.Prelude.{◌≡◌, ◌<◌, length, map, min};
ghost use Rattle.std.specs.List.{range_with_len};
ghost use Rattle.schema_facts.specs.Capped.{capped, capped_facts, first_facts};
ghost use Rattle.schema_facts.specs.Delimiters.{delimiter_byte as byte_of};
ghost use Rattle.schema_facts.specs.Dictionaries.{project_of};
ghost use Rattle.schema_facts.specs.FieldSizes.{field_sizes, greatest_by};
ghost use Rattle.schema_facts.specs.Layout.{column_layout, layout_of, table_layouts};
ghost use Rattle.schema_facts.specs.TableFacts.{facts_at, line_size, sum_of_costs};

use crate::column_facts::{ColumnFacts, NO_COLUMN_FACTS, facts_among, facts_of_columns};
use crate::counts::count;
use crate::field_sizes::size_of;
use crate::layout::Keys;
use crate::limits::MAX_ITEMS;
use crate::lineage::{ENDLESS, Lineage, lineage_of};
use crate::places::keys_of;
use crate::word_lists::Dictionaries;
use schema_model::{Column, Delimiter, Schema, Table};

/// The facts of a table, which don't change from row to row.
#[derive(Clone, Copy, Debug, PartialEq, Eq)]
pub struct TableFacts {
    /// The keys: their base, and whether they are scrambled.
    pub keys: Keys,
    /// How long the rows live, and what their deaths and losses cost.
    pub lineage: Lineage,
    /// The facts of the first 64 columns, in order. Those past the last column are of a column of the empty text.
    pub columns: [ColumnFacts; MAX_ITEMS],
    /// The cost of a row: a bound on the permutations of its report.
    pub cost: u64,
    /// The greatest length of a line, in bytes.
    pub max_line: u64,
}

impl TableFacts {
    ghost use Rattle.std.specs.Prelude.{◌≡◌};
    ghost use Rattle.schema_facts.specs.FactsBefore.{facts_among};

    /// Returns the facts of the column at a place. Past the first 64 columns, and past the last one, these are those of a column of the
    /// empty text.
    pub fn column(&self, place: usize) -> ColumnFacts
        ensures { result ≡ facts_among self.now.columns place }
    {
        facts_among(&self.columns, place)
    }
}

/// The facts of a table without rows and columns.
pub const NO_FACTS: TableFacts = TableFacts {
    keys: Keys {
        base: 0,
        scramble: false,
    },
    lineage: ENDLESS,
    columns: [NO_COLUMN_FACTS; MAX_ITEMS],
    cost: 0,
    max_line: 0,
};

/// Fills in the facts of the first tables of a schema, one for each given place. It takes no memory.
pub fn fill_facts(schema: &Schema, dictionaries: &Dictionaries, facts: &mut [TableFacts])
    requires { length facts.old ≡ min (length schema.now.tables) 64 }
    ensures { facts.new ≡ first_facts (project_of schema.now dictionaries.now) }
{
    for place in 0..facts.len() {
        facts[place] = facts_of(schema, dictionaries, &facts[..place], place);
    }
}

/// Returns the facts of the table at a place, from the facts of the tables before it.
fn facts_of(
    schema: &Schema,
    dictionaries: &Dictionaries,
    earlier: &[TableFacts],
    place: usize,
) -> TableFacts
    requires place { place < length schema.now.tables }
    requires earlier { earlier.now ≡ map (λ p. capped_facts (facts_at (layout_of (project_of schema.now dictionaries.now)) p)) (range_with_len 0 place) }
    ensures { result ≡ capped_facts (facts_at (layout_of (project_of schema.now dictionaries.now)) place) }
{
    let tables = schema.tables.as_slice();
    let table = &tables[place];
    let lineage = lineage_of(tables, earlier, table);
    let columns = facts_of_columns(count(schema.units), tables, earlier, table);
    let death = lineage.death_cost.saturating_add(1);
    let change = lineage
        .loss_cost
        .saturating_add(u64::from(table.update.is_some()));
    let fields = lineage.null_cost.saturating_add(sum_of_costs(&columns));
    TableFacts {
        keys: keys_of(table.columns.as_slice()),
        lineage,
        columns,
        cost: death.saturating_add(change.saturating_add(fields)),
        max_line: line_size(
            delimiter_byte(schema.delimiter),
            dictionaries,
            tables,
            table.columns.as_slice(),
        ),
    }
}

/// Returns how many permutations some fields ask together.
fn sum_of_costs(columns: &[ColumnFacts]) -> u64
    ensures { result ≡ capped (sum_of_costs columns.now) }
{
    let mut cost: u64 = 0;
    for facts in columns {
        cost = cost.saturating_add(facts.cost);
    }
    cost
}

/// Returns the greatest length of a line of some columns: the sizes of the fields, and a byte after each.
pub fn line_size(
    delimiter: u8,
    dictionaries: &Dictionaries,
    tables: &[Table],
    columns: &[Column],
) -> u64
    ensures { result ≡ capped (line_size (field_sizes delimiter (table_layouts dictionaries.now tables.now) (map (column_layout dictionaries.now tables.now columns.now) columns.now))) }
{
    let mut size: u64 = 0;
    for column in columns {
        let taken = size_of(delimiter, dictionaries, tables, columns, &column.kind);
        size = size.saturating_add(taken.saturating_add(1));
    }
    size
}

/// Returns the byte between two fields.
pub fn delimiter_byte(delimiter: Delimiter) -> u8
    ensures { result ≡ byte_of delimiter }
{
    match delimiter {
        Delimiter::Tab => b'\t',
        Delimiter::Bar => b'|',
    }
}

/// Returns the greatest length of a line of any table, in bytes.
pub fn greatest_line(facts: &[TableFacts]) -> u64
    ensures { result ≡ greatest_by (λ fact. fact.max_line) facts.now }
{
    let mut most = 0;
    for fact in facts {
        most = most.max(fact.max_line);
    }
    most
}
