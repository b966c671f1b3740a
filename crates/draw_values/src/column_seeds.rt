//! The seeds of a column by unit. Those of the first units are kept.

ghost use Rattle.std.specs.Prelude.{◌≡◌, ◌<◌, ◌≤◌, ◌+◌, IfOk, length};
ghost use Rattle.philox_seeds.specs.SeedTree.{column_seed as column_seed_of, table_seed as table_seed_of, unit_seed as unit_seed_of};
ghost use Rattle.schema_facts.specs.Layout.{layout_of};
ghost use Rattle.draw_values.specs.ColumnSeeds.{AreUnitSeeds};

use out_of_memory::Memory;
use philox_seeds::{column_seed, table_seed, unit_seed};
use schema_plan::Plan;
use std::alloc::Global;
use std::marker::Model;

/// The seeds of a column by unit. Those of the first units are kept, and any other is made when it is asked for. A contract sees
/// the column's seed.
#[derive(Drop)]
pub struct ColumnSeeds {
    column_seed: u64,
    kept: Vec<u64>,
}

impl Model for ColumnSeeds {
    ghost use Rattle.std.specs.Prelude.{ℕ};
    ghost use Rattle.draw_values.specs.ColumnSeeds.{AreUnitSeeds};

    ghost Value = { ℕ };

    ghost view = { λ s. s.column_seed };

    ghost invariant = { λ s. AreUnitSeeds s.column_seed s.kept.items };
}

impl ColumnSeeds {
    /// Returns the seeds of the column at a place. The seeds of the units 0 to `last` are kept, but at most `room` of them. Makes
    /// none at `Memory`.
    pub fn new(
        alloc: Global,
        plan: &Plan,
        table: u32,
        column: u32,
        last: u64,
        room: u64,
    ) -> Result<ColumnSeeds, Memory>
        ensures { IfOk result (λ seeds. seeds ≡ column_seed_of (table_seed_of (layout_of plan.now).seed table) column) }
    {
        let column_seed = column_seed(table_seed(plan.seed(), table), column);
        ColumnSeeds::below(alloc, column_seed, last, room)
    }

    /// Returns the seeds of a column, from the column's own. The seeds of the units 0 to `last` are kept, but at most `room` of them.
    /// Makes none at `Memory`.
    pub fn below(
        alloc: Global,
        column_seed: u64,
        last: u64,
        room: u64,
    ) -> Result<ColumnSeeds, Memory>
        ensures { IfOk result (λ seeds. seeds ≡ column_seed) }
    {
        let count = if last < room { last + 1 } else { room };
        let kept = unit_seeds(alloc, column_seed, count)?;
        Ok(ColumnSeeds { column_seed, kept })
    }

    /// Returns the seed at a unit.
    #[inline(always)]
    pub fn at(&self, unit: u64) -> u64
        ensures { result ≡ unit_seed_of self.now unit }
    {
        let kept = self.kept.as_slice();
        if unit < kept.len() as u64 {
            kept[unit as usize]
        } else {
            unit_seed(self.column_seed, unit)
        }
    }
}

/// Makes a column's seeds of the first `count` units.
fn unit_seeds(alloc: Global, column_seed: u64, count: u64) -> Result<Vec<u64>, Memory>
    ensures { IfOk result (λ seeds. AreUnitSeeds column_seed seeds.items) }
{
    let mut seeds = Vec::new(alloc);
    for unit in 0..count {
        seeds.push(unit_seed(column_seed, unit))?;
    }
    Ok(seeds)
}
