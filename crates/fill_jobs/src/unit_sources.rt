//! What units do to the tables, as they are played.

ghost use Rattle.std.specs.Prelude.{[], length};
ghost use Rattle.cohort_sizes.specs.Births.{cohort_size, first_ordinal};
ghost use Rattle.life_intervals.specs.Generator.{table_of};
ghost use Rattle.update_box.specs.TableLists.{table_lists_at};
ghost use Rattle.fill_jobs.specs.Playing.{changes_told};

use keeper_play::UnitSource;
use life_intervals::{Cohort, cohort};
use schema_plan::Plan;
use update_box::UnitRows;

/// What a unit after 0 does, as it was found.
#[derive(Drop)]
pub(crate) struct Changed<'a> {
    pub(crate) rows: &'a UnitRows,
}

impl<'a> UnitSource for Changed<'a> {
    ghost tables = { λ m. length m.rows.now.tables };

    ghost changes = { λ m place. changes_told (table_lists_at m.rows.now place) };

    fn dels(&self, table: u32) -> &[u64] {
        self.rows.dels(table)
    }

    fn upds(&self, table: u32) -> &[u64] {
        self.rows.upds(table)
    }

    fn ins(&self, table: u32) -> Cohort {
        self.rows.ins(table)
    }
}

/// What unit 0 does: it inserts its cohorts.
#[derive(Drop)]
pub(crate) struct Births<'a> {
    pub(crate) plan: &'a Plan,
}

impl<'a> UnitSource for Births<'a> {
    ghost tables = { λ m. length m.plan.now.schema.tables };

    ghost changes = { λ m place. record {
      deleted = [];
      updated = [];
      inserted = record { first = first_ordinal (table_of m.plan.now place).births 0; size = cohort_size (table_of m.plan.now place).births 0 };
    } };

    fn dels(&self, _table: u32) -> &[u64] {
        &[]
    }

    fn upds(&self, _table: u32) -> &[u64] {
        &[]
    }

    fn ins(&self, table: u32) -> Cohort {
        cohort(self.plan, table, 0)
    }
}
