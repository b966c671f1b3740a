//! The places of rows in the lists of their tables, found by counting lives.

ghost use Rattle.std.specs.Prelude.{◌≡◌, ◌+◌, ◌-◌, ◌*◌, ◌<◌, ◌≤◌, ◌^◌, ℕ, All, IfOk, count_by, get_or, length, true};
ghost use Rattle.std.specs.List.{range_with_len};
ghost use Rattle.std.specs.List.Sorted.{IsStrictlyIncreasing};
ghost use Rattle.cohort_sizes.specs.Births.{born_count};
ghost use Rattle.schema_facts.specs.Layout.{layout_of};
ghost use Rattle.schema_facts.specs.Lineage.{death_cost};
ghost use Rattle.life_intervals.specs.CohortParents.{asked_for_death};
ghost use Rattle.life_intervals.specs.Generator.{generator_of, last_unit, table_of};
ghost use Rattle.life_intervals.specs.Simulation.{holds_row, rows_at};
ghost use Rattle.undo_streams.specs.Places.{AreBornAt, living_among, places_of};

use life_intervals::{MOST_ROWS, Rows, Survival, birth, born, cohort, survival_at};
use out_of_memory::Memory;
use std::alloc::Global;
use std::sync::ledger::Ledger;
use step_count::Steps;

/// Buffers for a run of rows that are born at one unit: their ordinals, whether each is alive, and what tells so. One is made for many runs,
/// and carries nothing from one run to the next.
#[derive(Drop)]
struct LivesBuf {
    ordinals: [u64; MOST_ROWS],
    births: [u64; MOST_ROWS],
    live: [bool; MOST_ROWS],
    parents: [u64; MOST_ROWS],
    parents_births: [u64; MOST_ROWS],
}

impl LivesBuf {
    fn new() -> LivesBuf {
        LivesBuf {
            ordinals: [0; MOST_ROWS],
            births: [0; MOST_ROWS],
            live: [false; MOST_ROWS],
            parents: [0; MOST_ROWS],
            parents_births: [0; MOST_ROWS],
        }
    }
}

/// Fills a list with consecutive numbers, from `first` on.
fn put_range(list: &mut [u64], first: u64)
    requires { first + length list.old ≤ 2 ^ 40 }
    ensures { list.new ≡ range_with_len first (length list.old) }
{
    for (index, number) in list.iter_mut().enumerate() {
        *number = first + index as u64;
    }
}

/// Fills a list with a unit.
fn put_unit(list: &mut [u64], unit: u64)
    ensures { (i : ℕ) → i < length list.old → get_or list.new i 0 ≡ unit }
{
    for i in 0..list.len() {
        list[i] = unit;
    }
}

/// Counts the flags that are true.
fn count_true(flags: &[bool]) -> u64
    ensures count { result ≡ count_by (λ flag. flag) flags.now }
    ensures most { result ≤ length flags.now }
{
    let mut count = 0;
    for flag in flags {
        if *flag {
            count += 1;
        }
    }
    count
}

/// Counts the rows that are alive at unit `t`, among `count` rows from ordinal `first` on. They are born at unit `born`, and are no more than
/// a run has.
fn living_in_run<L: Ledger>(
    rows: &Rows<'_>,
    table: u32,
    t: u64,
    born: u64,
    first: u64,
    count: usize,
    lives: &mut LivesBuf,
    steps: &mut Steps<L>,
) -> u64
    requires table { table < length rows.now.schema.tables }
    requires unit { t ≤ last_unit rows.now }
    requires born { born ≤ t }
    requires few { count ≤ MOST_ROWS }
    requires limit { first + count ≤ 2 ^ 40 }
    requires rows { AreBornAt rows.now table born first count }
    ensures living { result ≡ living_among rows.now table t first count }
    ensures most { result ≤ count }
    ensures steps { steps.new ≤ steps.old + count * asked_for_death rows.now table }
{
    let all = &mut lives.ordinals[..];
    let ordinals = &mut all[..count];
    put_range(ordinals, first);
    let all = &mut lives.births[..];
    let births = &mut all[..count];
    put_unit(births, born);
    let all = &mut lives.live[..];
    let live = &mut all[..count];
    let all = &mut lives.parents[..];
    let parents = &mut all[..count];
    let all = &mut lives.parents_births[..];
    let parents_births = &mut all[..count];
    let _by = rows.put_run_lives(
        table,
        t,
        ordinals,
        births,
        live,
        parents,
        parents_births,
        steps,
    );
    count_true(live)
}

/// Counts the rows that are alive at unit `t`, among any number of rows from ordinal `first` on that are born at unit `born`.
fn living_in_runs<L: Ledger>(
    rows: &Rows<'_>,
    table: u32,
    t: u64,
    born: u64,
    first: u64,
    count: u64,
    lives: &mut LivesBuf,
    steps: &mut Steps<L>,
) -> u64
    requires table { table < length rows.now.schema.tables }
    requires unit { t ≤ last_unit rows.now }
    requires born { born ≤ t }
    requires limit { first + count ≤ 2 ^ 40 }
    requires rows { AreBornAt rows.now table born first count }
    ensures living { result ≡ living_among rows.now table t first count }
    ensures most { result ≤ count }
    ensures steps { steps.new ≤ steps.old + count * asked_for_death rows.now table }
{
    let mut living = 0;
    let mut done = 0;
    while done < count {
        let some = (count - done).min(MOST_ROWS as u64);
        living += living_in_run(
            rows,
            table,
            t,
            born,
            first + done,
            some as usize,
            lives,
            steps,
        );
        done += some;
    }
    living
}

/// Counts the rows that are alive at unit `t`, among rows from ordinal `first` on that are born at unit `born`. Asks no single row if the
/// cohort's survival decides for all.
fn living_in_part<L: Ledger>(
    rows: &Rows<'_>,
    table: u32,
    t: u64,
    born: u64,
    first: u64,
    count: u64,
    lives: &mut LivesBuf,
    steps: &mut Steps<L>,
) -> u64
    requires table { table < length rows.now.schema.tables }
    requires unit { t ≤ last_unit rows.now }
    requires born { born ≤ t }
    requires limit { first + count ≤ 2 ^ 40 }
    requires rows { AreBornAt rows.now table born first count }
    ensures living { result ≡ living_among rows.now table t first count }
    ensures most { result ≤ count }
    ensures steps { steps.new ≤ steps.old + count * asked_for_death rows.now table }
{
    let _sound = rows.plan().schema(); // so lives say of all rows of a cohort
    match survival_at(rows.plan(), table, born, t) {
        Survival::Sure => count,
        Survival::Drawn => living_in_runs(rows, table, t, born, first, count, lives, steps),
        Survival::Over => 0,
    }
}

/// Counts the rows of a table that are alive at unit `t`, among the rows from ordinal `first` up to `end`. They are born by `t`.
fn living_between<L: Ledger>(
    rows: &Rows<'_>,
    table: u32,
    t: u64,
    first: u64,
    end: u64,
    lives: &mut LivesBuf,
    steps: &mut Steps<L>,
) -> u64
    requires table { table < length rows.now.schema.tables }
    requires unit { t ≤ last_unit rows.now }
    requires ordered { first ≤ end }
    requires born { end ≤ born_count (table_of rows.now table).births t }
    ensures living { result ≡ living_among rows.now table t first (end - first) }
    ensures most { result ≤ end - first }
    ensures steps { steps.new ≤ steps.old + (end - first) * asked_for_death rows.now table }
{
    let _limits = rows.plan().table(table); // it has at most 2^40 rows
    let mut living = 0;
    let mut from = first;
    while from < end {
        let born = birth(rows.plan(), table, from);
        let cohort = cohort(rows.plan(), table, born);
        let until = end.min(cohort.first + cohort.size);
        living += living_in_part(rows, table, t, born, from, until - from, lives, steps);
        from = until;
    }
    living
}

/// Counts the rows that a table holds at unit `t`. It counts them by life and makes no row. Takes at most as many steps as a row's death
/// costs, for each row that is born by the unit.
pub fn count_living<L: Ledger>(rows: &Rows<'_>, table: u32, t: u64, steps: &mut Steps<L>) -> u64
    requires table { table < length rows.now.schema.tables }
    requires unit { t ≤ last_unit rows.now }
    ensures count { result ≡ length (rows_at (generator_of rows.now) table t) }
    ensures steps { steps.new ≤ steps.old + death_cost (layout_of rows.now).tables table * born_count (table_of rows.now table).births t }
{
    let _sound = rows.plan().schema(); // so the simulation is its closed form
    let end = born(rows.plan(), table, t);
    living_between(rows, table, t, 0, end, &mut LivesBuf::new(), steps)
}

/// Returns the places, from 0, of rows in the list of those that a table holds at unit `t`. The ordinals rise strictly, and the table holds
/// each of the rows at `t`. It counts earlier rows by life and makes no row. Takes at most as many steps as a row's death costs, for each row
/// that is born by the unit. Returns `Memory` if memory runs out.
pub fn places<L: Ledger>(
    alloc: Global,
    rows: &Rows<'_>,
    table: u32,
    t: u64,
    ordinals: &[u64],
    steps: &mut Steps<L>,
) -> Result<Vec<u64>, Memory>
    requires table { table < length rows.now.schema.tables }
    requires unit { t ≤ last_unit rows.now }
    requires rising { IsStrictlyIncreasing ordinals.now }
    requires held { All (λ ordinal. holds_row (rows_at (generator_of rows.now) table t) ordinal ≡ true) ordinals.now }
    ensures places { IfOk result (λ places. places.items ≡ places_of rows.now table t ordinals.now) }
    ensures steps { steps.new ≤ steps.old + death_cost (layout_of rows.now).tables table * born_count (table_of rows.now table).births t }
{
    let _sound = rows.plan().schema(); // so the simulation is its closed form
    let mut lives = LivesBuf::new();
    let mut places = Vec::new(alloc);
    let mut before = 0;
    let mut from = 0;
    for ordinal in ordinals {
        before += living_between(rows, table, t, from, *ordinal, &mut lives, steps);
        places.push(before)?;
        from = *ordinal;
    }
    Ok(places)
}
