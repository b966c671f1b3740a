//! A table beside a schema: it stands after the schema's tables and may refer to them. Its dictionaries are handed in with it.

ghost use Rattle.std.specs.Prelude.{◌≡◌, All, IfOk};
ghost use Rattle.schema_plan.specs.Beside.{facts_beside, line_beside, ready_beside};
ghost use Rattle.schema_facts.specs.Capped.{capped};
ghost use Rattle.schema_plan.specs.Limits.{CanBeReady};

use crate::plan::Plan;
use crate::ready::ReadyColumn;
use crate::ready_columns::ready_columns;
use crate::ready_words::Lexicon;
use out_of_memory::Memory;
use schema_facts::{ColumnFacts, Dictionaries, MAX_ITEMS, facts_of_columns, line_size};
use schema_model::{Column, Sequence, Table};
use std::alloc::Global;

impl Plan {
    /// Returns the facts of the first 64 columns of a table beside the schema, in order. Costs stand at 2^64 - 1 where they are past it.
    pub fn facts_beside(&self, table: &Table) -> [ColumnFacts; MAX_ITEMS]
        ensures { result ≡ facts_beside self.now table.now }
    {
        let tables = self.schema().tables.as_slice();
        facts_of_columns(self.units(), tables, self.facts(), table)
    }

    /// Returns the greatest length of a line of the columns of a table beside the schema, in bytes, at most 2^64 - 1.
    pub fn line_beside(&self, dictionaries: &Dictionaries, columns: &[Column]) -> u64
        ensures { result ≡ capped (line_beside self.now dictionaries.now columns.now) }
    {
        let tables = self.schema().tables.as_slice();
        line_size(self.delimiter(), dictionaries, tables, columns)
    }

    /// Makes ready the columns of a table beside the schema, in order. What they hold is within its limits. Refuses if memory is wanting.
    pub fn ready_beside(
        &self,
        alloc: Global,
        dictionaries: &Dictionaries,
        columns: &[Column],
    ) -> Result<Sequence<ReadyColumn>, Memory>
        requires { All (λ column. CanBeReady dictionaries.now column.kind) columns.now }
        ensures { IfOk result (λ ready. ready ≡ ready_beside self.now dictionaries.now columns.now) }
    {
        let tables = self.schema().tables.as_slice();
        let lexicon = Lexicon::new(alloc, self.delimiter(), dictionaries)?;
        ready_columns(alloc, &lexicon, tables, columns)
    }
}
