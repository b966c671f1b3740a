//! The plan of an accepted schema.

ghost use Rattle.std.specs.Prelude.{◌≡◌, ◌<◌, ◌≤◌, Some, length, slice_get, IfOk, IfSome};
ghost use Rattle.std.specs.List.{position};
ghost use Rattle.std.specs.Option.{option_copied};
ghost use Rattle.schema_facts.specs.Capped.{first_facts};
ghost use Rattle.schema_facts.specs.ColumnFacts.{field_facts};
ghost use Rattle.schema_facts.specs.Dictionaries.{dictionary_named, project_of};
ghost use Rattle.schema_facts.specs.FieldSizes.{size_of};
ghost use Rattle.schema_facts.specs.Layout.{column_at, layout_of, table_at, table_layout};
ghost use Rattle.schema_plan.specs.Limits.{IsInLimits, IsLife, IsTableInLimits, IsUpdatePeriod};
ghost use Rattle.schema_facts.specs.Lineage.{longest_life, sure_life};
ghost use Rattle.schema_facts.specs.Names.{same_text};
ghost use Rattle.schema_plan.specs.Planned.{table_named};
ghost use Rattle.schema_plan.specs.Ready.{ready_columns};
ghost use Rattle.schema_plan.specs.Rules.{IsAccepted};
ghost use Rattle.schema_facts.specs.TableFacts.{cost, facts_at, max_line, reach};

use crate::births::cohorts_of_tables;
use crate::ready::ReadyColumn;
use crate::ready_columns::ready_tables;
use cohort_sizes::Cohorts;
use dictionaries::Dictionary;
use out_of_memory::Memory;
use schema_facts::{
    Dictionaries, Keys, Numbers, Span, TableFacts, count, delimiter_byte, greatest_line, size_of,
    span_of,
};
use schema_model::{Schema, Sequence, Table};
use std::alloc::Global;
use std::marker::Model;

/// An accepted schema with its dictionaries, and what doesn't change from row to row. A contract sees the schema and the dictionaries.
///
/// A table is named by its place in the schema, counted from 0. Lives are in units, sizes in bytes.
pub struct Plan {
    schema: Schema,
    dictionaries: Dictionaries,
    facts: Vec<TableFacts>,
    ready: Vec<Sequence<ReadyColumn>>,
    cohorts: Vec<Cohorts>,
    reach: u64,
}

impl Drop for Plan {
    fn drop(self) {
        let Plan {
            schema,
            dictionaries,
            facts,
            ready,
            cohorts,
            reach: _,
        } = self;
        drop(schema);
        drop(dictionaries);
        drop(facts);
        drop(ready);
        drop(cohorts);
    }
}

impl Model for Plan {
    ghost use Rattle.schema_facts.specs.Dictionaries.{Project, project_of};
    ghost use Rattle.schema_plan.specs.Planned.{IsPlan};

    ghost Value = { Project };

    ghost view = { λ p. project_of p.schema p.dictionaries };

    ghost invariant = { λ p. IsPlan (project_of p.schema p.dictionaries) p.facts.items p.ready.items p.cohorts.items p.reach };
}

impl Plan {
    /// Makes the plan of a schema that keeps all rules with its dictionaries, from the facts of its tables. Refuses if memory is wanting.
    pub fn of_accepted(
        alloc: Global,
        schema: Schema,
        dictionaries: Dictionaries,
        facts: &[TableFacts],
    ) -> Result<Plan, Memory>
        requires accepted { IsAccepted (project_of schema dictionaries) }
        requires limits { IsInLimits (project_of schema dictionaries) }
        requires facts { facts.now ≡ first_facts (project_of schema dictionaries) }
        ensures { IfOk result (λ plan. plan ≡ project_of schema dictionaries) }
    {
        let reach = greatest_line(facts);
        let cohorts = cohorts_of_tables(alloc, schema.tables.as_slice(), count(schema.units))?;
        let facts = Vec::from_slice(alloc, facts)?;
        let ready = ready_tables(alloc, &schema, &dictionaries)?;
        Ok(Plan {
            schema,
            dictionaries,
            facts,
            ready,
            cohorts,
            reach,
        })
    }

    /// Returns the schema.
    pub fn schema(&self) -> &Schema
        ensures value { result.now ≡ self.now.schema }
        ensures accepted { IsAccepted self.now }
        ensures limits { IsInLimits self.now }
    {
        &self.schema
    }

    /// Returns the number from which everything random is drawn.
    pub fn seed(&self) -> u64
        ensures { result ≡ (layout_of self.now).seed }
    {
        self.schema.seed as u64
    }

    /// Returns the byte between two fields.
    #[inline]
    pub fn delimiter(&self) -> u8
        ensures { result ≡ (layout_of self.now).delimiter }
    {
        delimiter_byte(self.schema.delimiter)
    }

    /// Returns the last unit.
    pub fn units(&self) -> u64
        ensures { result ≡ (layout_of self.now).units }
    {
        self.schema.units as u64
    }

    /// Returns the number of tables.
    pub fn tables(&self) -> u32
        ensures { result ≡ length self.now.schema.tables }
    {
        self.schema.tables.len() as u32
    }

    /// Returns the table with a name, or None exactly if no table has it.
    pub fn table_named(&self, name: &str) -> Option<u32>
        ensures { result ≡ table_named self.now.schema name.now }
    {
        match place_of(self.schema.tables.as_slice(), name) {
            Some(place) => Some(place as u32),
            None => None,
        }
    }

    /// Returns the dictionaries of the schema.
    pub fn dictionaries(&self) -> &Dictionaries
        ensures { result.now ≡ self.now.dictionaries }
    {
        &self.dictionaries
    }

    /// Returns the first dictionary with a name, or None exactly if no dictionary has it.
    pub fn dictionary(&self, name: &str) -> Option<&Dictionary>
        ensures { option_copied result ≡ dictionary_named self.now.dictionaries name.now }
    {
        self.dictionaries.named(name)
    }

    /// Returns the table at a place, as the schema has it.
    pub fn table(&self, table: u32) -> &Table
        requires { table < length self.now.schema.tables }
        ensures found { slice_get self.now.schema.tables table ≡ Some result.now }
        ensures layout { table_layout self.now.dictionaries self.now.schema.tables result.now ≡ table_at (layout_of self.now).tables table }
        ensures limits { IsTableInLimits (layout_of self.now).units (table_at (layout_of self.now).tables table) }
    {
        self.schema.tables.get(table as usize)
    }

    /// Returns the columns of a table, ready for rows.
    #[inline]
    pub fn columns(&self, table: u32) -> &[ReadyColumn]
        requires { table < length self.now.schema.tables }
        ensures columns { result.now ≡ ready_columns (layout_of self.now) table }
        ensures limits { IsTableInLimits (layout_of self.now).units (table_at (layout_of self.now).tables table) }
        ensures units { (layout_of self.now).units ≤ 10000 }
    {
        self.ready[table as usize].as_slice()
    }

    /// Returns the cohorts of a table. A cohort is the rows that are born at one unit.
    #[inline]
    pub fn cohorts(&self, table: u32) -> &Cohorts
        requires { table < length self.now.schema.tables }
        ensures { result.now ≡ record { births = (table_at (layout_of self.now).tables table).births; last = (layout_of self.now).units } }
    {
        &self.cohorts[table as usize]
    }

    /// Returns the keys of a table.
    pub fn keys(&self, table: u32) -> Keys
        requires { table < length self.now.schema.tables }
        ensures { result ≡ (table_at (layout_of self.now).tables table).key }
    {
        self.facts_of(table).keys
    }

    /// Returns a table's own life: how many units a row lives. Returns None exactly if the table has no life of its own.
    pub fn life(&self, table: u32) -> Option<Span>
        requires { table < length self.now.schema.tables }
        ensures life { result ≡ (table_at (layout_of self.now).tables table).life }
        ensures limits { IfSome result IsLife }
    {
        match self.table(table).life {
            Some(life) => Some(span_of(life)),
            None => None,
        }
    }

    /// Returns the number of units from one change of a row to its next, or None exactly if the table's rows never change.
    pub fn update(&self, table: u32) -> Option<u64>
        requires { table < length self.now.schema.tables }
        ensures update { result ≡ (table_at (layout_of self.now).tables table).update }
        ensures limits { IfSome result IsUpdatePeriod }
    {
        match self.table(table).update {
            Some(units) => Some(count(units)),
            None => None,
        }
    }

    /// Returns how many units the rows of a table live at least, or None exactly if that is unbounded.
    pub fn sure_life(&self, table: u32) -> Option<u64>
        requires { table < length self.now.schema.tables }
        ensures { result ≡ sure_life (layout_of self.now).tables table }
    {
        self.facts_of(table).lineage.sure_life
    }

    /// Returns how many units the rows of a table live at most, or None exactly if that is unbounded.
    pub fn longest_life(&self, table: u32) -> Option<u64>
        requires { table < length self.now.schema.tables }
        ensures { result ≡ longest_life (layout_of self.now).tables table }
    {
        self.facts_of(table).lineage.longest_life
    }

    /// Returns the cost of a row of a table. It bounds the permutations that the row's report asks: one that finds the row by its key, and
    /// those of its death and of its line.
    pub fn cost(&self, table: u32) -> u64
        requires { table < length self.now.schema.tables }
        ensures { result ≡ cost (layout_of self.now) table }
    {
        self.facts_of(table).cost
    }

    /// Returns the greatest length of a line of a table with its line feed, in bytes.
    pub fn max_line(&self, table: u32) -> u64
        requires { table < length self.now.schema.tables }
        ensures size { result ≡ max_line (layout_of self.now) table }
        ensures within_reach { result ≤ reach (layout_of self.now) }
    {
        self.facts_of(table).max_line
    }

    /// Returns the greatest length of the field in a column of a table, as it is written, in bytes. A null field has 2.
    pub fn field_size(&self, table: u32, column: usize) -> u64
        requires table { table < length self.now.schema.tables }
        requires column { column < length (table_at (layout_of self.now).tables table).columns }
        ensures size { result ≡ size_of (layout_of self.now).delimiter (layout_of self.now).tables (table_at (layout_of self.now).tables table).columns
            (column_at (table_at (layout_of self.now).tables table).columns column).kind }
        ensures within_line { result < max_line (layout_of self.now) table }
    {
        let tables = self.schema.tables.as_slice();
        let columns = tables[table as usize].columns.as_slice();
        let kind = &columns[column].kind;
        size_of(self.delimiter(), &self.dictionaries, tables, columns, kind)
    }

    /// Returns the numbers that the fields in a column of a table hold, or None exactly if the column isn't numeric.
    pub fn numbers(&self, table: u32, column: usize) -> Option<Numbers>
        requires { table < length self.now.schema.tables }
        ensures { result ≡ (field_facts (layout_of self.now) table column).numbers }
    {
        self.facts_of(table).column(column).numbers
    }

    /// Returns the greatest length of a line of any table, in bytes.
    pub fn reach(&self) -> u64
        ensures { result ≡ reach (layout_of self.now) }
    {
        self.reach
    }

    /// Returns the facts of the tables, in order.
    pub(crate) fn facts(&self) -> &[TableFacts]
        ensures { result.now ≡ first_facts self.now }
    {
        self.facts.as_slice()
    }

    fn facts_of(&self, table: u32) -> &TableFacts
        requires { table < length self.now.schema.tables }
        ensures facts { result.now ≡ facts_at (layout_of self.now) table }
        ensures within_reach { result.now.max_line ≤ reach (layout_of self.now) }
    {
        &self.facts[table as usize]
    }
}

/// Returns the place of the first table with a name, or None if there is none.
fn place_of(tables: &[Table], name: &str) -> Option<usize>
    ensures { result ≡ position (λ table. same_text table.name name.now) tables.now }
{
    tables.iter().position(|table| table.name.as_str() == name)
}
