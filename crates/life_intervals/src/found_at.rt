//! The rows of a cohort that a unit can change, found by their places: the rows whose own lives end, and the rows that are due.

ghost use Rattle.std.specs.Prelude.{◌≡◌, ◌+◌, ◌*◌, ◌<◌, ◌≤◌, ◌++◌, ◌^◌, All, OnErr, OnOk, drop, length, map, take};
ghost use Rattle.cohort_sizes.specs.Births.{cohort_size};
ghost use Rattle.schema_facts.specs.Lineage.{one_if};
ghost use Rattle.life_intervals.specs.CohortOrders.{do_lives_differ, do_updates_differ, is_drawn};
ghost use Rattle.life_intervals.specs.FoundAt.{AreAppended, GoesOn, due_at, ending_at, places_leaving, row_at_place, rows_leaving};
ghost use Rattle.life_intervals.specs.Generator.{last_unit, table_of};

use crate::births::cohort;
use crate::orders::Purpose;
use crate::rows::Rows;
use crate::runs::add_start;
use out_of_memory::Memory;
use std::sync::ledger::Ledger;
use step_count::Steps;

/// The numbers that leave `remainder` when divided by `modulus`.
#[derive(Clone, Copy)]
struct Residue {
    modulus: u64,
    remainder: u64,
}

/// Returns how many numbers below `size` are in the residue.
fn count_below(size: u64, residue: Residue) -> u64
    requires { residue.remainder < residue.modulus }
{
    if size <= residue.remainder {
        return 0;
    }
    (size - 1 - residue.remainder) / residue.modulus + 1
}

/// Appends the places below `size` that are in a residue to a list.
fn push_places_leaving(size: u64, residue: Residue, places: &mut Vec<u64>) -> Result<(), Memory>
    requires size { size ≤ 2 ^ 40 }
    requires modulus { residue.modulus ≤ 2 ^ 40 }
    requires remainder { residue.remainder < residue.modulus }
    ensures places { OnOk result (places.new.items ≡ places.old.items ++ places_leaving residue.modulus residue.remainder size) }
    ensures before { GoesOn places.old.items places.new.items }
{
    places.reserve(count_below(size, residue) as usize)?;
    let mut place = residue.remainder;
    while place < size {
        places.push(place)?;
        place += residue.modulus;
    }
    Ok(())
}

impl<'a> Rows<'a> {
    /// Replaces places in an order of the cohort born at unit `born` with the ordinals of the rows at these places.
    fn put_rows_at<L: Ledger>(
        &self,
        table: u32,
        purpose: Purpose,
        born: u64,
        places: &mut [u64],
        steps: &mut Steps<L>,
    )
        requires table { table < length self.now.schema.tables }
        requires unit { born ≤ last_unit self.now }
        requires below { All (λ place. place < cohort_size (table_of self.now table).births born) places.old }
        ensures rows { places.new ≡ map (row_at_place self.now table purpose born) places.old }
        ensures steps { steps.new ≡ steps.old + length places.old * one_if (is_drawn (table_of self.now table) purpose) }
    {
        let _limits = self.plan().schema(); // a table has at most 2^40 rows
        self.order(table, purpose, born).numbers(places, steps);
        add_start(places, cohort(self.plan(), table, born).first);
    }

    /// Replaces the places in a list, from the list's place `from` on, with the ordinals of the rows at these places.
    pub(crate) fn put_rows_from<L: Ledger>(
        &self,
        table: u32,
        purpose: Purpose,
        born: u64,
        from: usize,
        rows: &mut Vec<u64>,
        steps: &mut Steps<L>,
    )
        requires table { table < length self.now.schema.tables }
        requires unit { born ≤ last_unit self.now }
        requires within { from ≤ length rows.old.items }
        requires below { All (λ place. place < cohort_size (table_of self.now table).births born) (drop from rows.old.items) }
        ensures rows { rows.new.items ≡ take from rows.old.items ++ map (row_at_place self.now table purpose born) (drop from rows.old.items) }
        ensures steps { steps.new ≡ steps.old + length (drop from rows.old.items) * one_if (is_drawn (table_of self.now table) purpose) }
    {
        self.put_rows_at(table, purpose, born, &mut rows[from..], steps);
    }

    /// Appends to a list the rows of the cohort whose places are in a residue.
    fn push_rows_leaving<L: Ledger>(
        &self,
        table: u32,
        purpose: Purpose,
        born: u64,
        residue: Residue,
        rows: &mut Vec<u64>,
        steps: &mut Steps<L>,
    ) -> Result<(), Memory>
        requires table { table < length self.now.schema.tables }
        requires unit { born ≤ last_unit self.now }
        requires modulus { residue.modulus ≤ 2 ^ 40 }
        requires remainder { residue.remainder < residue.modulus }
        ensures rows { OnOk result (AreAppended (rows_leaving self.now table purpose born residue.modulus residue.remainder) rows.old.items rows.new.items) }
        ensures before { GoesOn rows.old.items rows.new.items }
        ensures memory { OnErr result (steps.new ≡ steps.old) }
        ensures least { steps.old ≤ steps.new }
        ensures steps { steps.new ≤ steps.old + length (rows_leaving self.now table purpose born residue.modulus residue.remainder) * one_if (is_drawn (table_of self.now table) purpose) }
    {
        let _limits = self.plan().table(table); // it has at most 2^40 rows
        let from = rows.len();
        push_places_leaving(cohort(self.plan(), table, born).size, residue, rows)?;
        self.put_rows_from(table, purpose, born, from, rows, steps);
        Ok(())
    }

    /// Appends the ordinals of the rows that are born at unit `born` and whose own lives end at unit `t`, in no special order.
    /// Takes one step for each row if lives of the table differ, else none. At `Memory` the list still begins with what it held,
    /// and no step is taken.
    pub fn push_ending<L: Ledger>(
        &self,
        table: u32,
        born: u64,
        t: u64,
        rows: &mut Vec<u64>,
        steps: &mut Steps<L>,
    ) -> Result<(), Memory>
        requires table { table < length self.now.schema.tables }
        requires born { born ≤ t }
        requires unit { t ≤ last_unit self.now }
        ensures rows { OnOk result (AreAppended (ending_at self.now table born t) rows.old.items rows.new.items) }
        ensures before { GoesOn rows.old.items rows.new.items }
        ensures memory { OnErr result (steps.new ≡ steps.old) }
        ensures least { steps.old ≤ steps.new }
        ensures steps { steps.new ≤ steps.old + length (ending_at self.now table born t) * one_if (do_lives_differ (table_of self.now table).life) }
    {
        let _limits = self.plan().schema(); // there are at most 10,000 units
        let Some(life) = self.plan().life(table) else {
            return Ok(());
        };
        if t < born + life.least || born + life.most < t {
            return Ok(());
        }
        let residue = Residue {
            modulus: life.most - life.least + 1,
            remainder: t - born - life.least,
        };
        self.push_rows_leaving(table, Purpose::Lives, born, residue, rows, steps)
    }

    /// Appends the ordinals of the rows that are born at unit `born`, before unit `t`, and are due at `t`, in no special order.
    /// Takes one step for each row if rows of a cohort can be due at different units, else none. At `Memory` the list still begins
    /// with what it held, and no step is taken.
    pub fn push_due<L: Ledger>(
        &self,
        table: u32,
        born: u64,
        t: u64,
        rows: &mut Vec<u64>,
        steps: &mut Steps<L>,
    ) -> Result<(), Memory>
        requires table { table < length self.now.schema.tables }
        requires born { born < t }
        requires unit { t ≤ last_unit self.now }
        ensures rows { OnOk result (AreAppended (due_at self.now table born t) rows.old.items rows.new.items) }
        ensures before { GoesOn rows.old.items rows.new.items }
        ensures memory { OnErr result (steps.new ≡ steps.old) }
        ensures least { steps.old ≤ steps.new }
        ensures steps { steps.new ≤ steps.old + length (due_at self.now table born t) * one_if (do_updates_differ (table_of self.now table).update) }
    {
        let Some(period) = self.plan().update(table) else {
            return Ok(());
        };
        let residue = Residue {
            modulus: period,
            remainder: (t - born - 1) % period,
        };
        self.push_rows_leaving(table, Purpose::Updates, born, residue, rows, steps)
    }
}
