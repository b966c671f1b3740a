//! The rules of a schema as tests of its sites, and the search for the first broken rule.

ghost use Rattle.std.specs.Prelude.{◌≡◌, ◌<◌, ◌&&◌, ◌||◌, IfSome, int_le, length, map, nat_le, pos};
ghost use Rattle.std.specs.List.{list_any};
ghost use Rattle.schema_facts.specs.Capped.{is_known_at_most};
ghost use Rattle.schema_facts.specs.FactsBefore.{facts_in};
ghost use Rattle.schema_facts.specs.Names.{same_text};
ghost use Rattle.schema_plan.specs.Rules.{break_in_table, first_break, first_broken, holds, is_between, is_key_first, is_later_date, is_life, is_new_at, is_one_to_64, is_total, is_update_period, kind_at};
ghost use Rattle.schema_plan.specs.Sites.{columns_at, IsSiteOf};

use crate::candidate::Candidate;
use crate::column_rules::{cites_still, is_case, is_change, is_null_share, is_template};
use crate::later_date_rules::is_later_date;
use crate::leaf_rules::{
    are_date_ranges, are_length_ranges, are_number_ranges, are_skew_ranges, are_weighted,
};
use crate::lookup_rules::is_lookup;
use crate::names::is_name;
use crate::padding_rules::are_paddings;
use crate::phase_rules::is_row_count;
use crate::reference_rules::{has_parents, is_spread, is_target, is_window};
use crate::total_rules::is_total;
use crate::unit_date_rules::is_unit_date;
use schema_facts::{MAX_ITEMS, TableFacts};
use schema_model::{Column, Kind, Life, Schema, Table, Text};
use schema_plan::{Broken, Rule, Site, is_citable_kind, is_supplied_kind, leaves_of};

/// The greatest last unit.
pub(crate) const MAX_UNITS: i64 = 10_000;

/// The greatest base of a table's keys.
const MAX_BASE: i64 = 1 << 62;

/// The longest life, in units.
const MAX_LIFE: i64 = 20_000;

/// The most units from one change of a row to its next.
const MAX_UPDATE: i64 = 10_000;

/// The greatest cost of a row.
const MAX_COST: u64 = 4_096;

/// The most bytes of a line.
const MAX_LINE: u64 = 65_536;

/// The rules in the order in which they are tried.
const ORDER: [Rule; 29] = [
    Rule::Dictionaries,
    Rule::SeedAndUnits,
    Rule::TableCount,
    Rule::TableNames,
    Rule::Columns,
    Rule::KeyColumn,
    Rule::RowCount,
    Rule::LifeRange,
    Rule::UpdatePeriod,
    Rule::NumberRange,
    Rule::DateRange,
    Rule::PickEntries,
    Rule::SkewRange,
    Rule::LengthRange,
    Rule::TemplateParts,
    Rule::CaseBranches,
    Rule::StillCitations,
    Rule::ReferenceTargets,
    Rule::ReferenceWindows,
    Rule::ParentRows,
    Rule::SpreadWeights,
    Rule::LookupColumns,
    Rule::RowCost,
    Rule::LineSize,
    Rule::ChangesAndNulls,
    Rule::UnitDates,
    Rule::LaterDates,
    Rule::Totals,
    Rule::PaddedParts,
];

/// Returns the first rule that a schema breaks with its dictionaries, at its first site. The whole schema comes before the tables, and
/// each table before its columns. Tables and columns keep their order.
#[tactic(auto, unfolding(schema_plan::specs::Rules::first_broken))]
pub(crate) fn first_broken(candidate: &Candidate<'_>) -> Option<Broken>
    ensures first { result ≡ first_broken candidate.now }
    ensures site { IfSome result (λ broken. IsSiteOf candidate.now.schema broken.site) }
{
    for rule in &ORDER {
        if let Some(site) = first_break(*rule, candidate) {
            return Some(Broken { rule: *rule, site });
        }
    }
    None
}

/// Returns the first site at which a rule is broken, or None if there is none.
pub(crate) fn first_break(rule: Rule, candidate: &Candidate<'_>) -> Option<Site>
    ensures first { result ≡ first_break rule candidate.now }
    ensures site { IfSome result (IsSiteOf candidate.now.schema) }
{
    if !holds(rule, candidate, Site::Whole) {
        return Some(Site::Whole);
    }
    for table in 0..candidate.schema().tables.len() {
        if let Some(site) = break_in_table(rule, candidate, table) {
            return Some(site);
        }
    }
    None
}

/// Returns the first site of a table at which a rule is broken, or None if there is none.
fn break_in_table(rule: Rule, candidate: &Candidate<'_>, table: usize) -> Option<Site>
    requires { IsSiteOf candidate.now.schema (Site.OfTable table) }
    ensures first { result ≡ break_in_table rule candidate.now table }
    ensures site { IfSome result (IsSiteOf candidate.now.schema) }
{
    if !holds(rule, candidate, Site::OfTable(table)) {
        return Some(Site::OfTable(table));
    }
    for column in 0..columns_at(candidate.schema(), table).len() {
        let site = Site::OfColumn(table, column);
        if !holds(rule, candidate, site) {
            return Some(site);
        }
    }
    None
}

/// Whether a rule holds at a site. It holds if it asks nothing there.
fn holds(rule: Rule, candidate: &Candidate<'_>, site: Site) -> bool
    requires { IsSiteOf candidate.now.schema site }
    ensures { result ≡ holds rule candidate.now site }
{
    match site {
        Site::Whole => holds_of_whole(rule, candidate),
        Site::OfTable(table) => holds_of_table(rule, candidate, table),
        Site::OfColumn(table, column) => holds_of_column(rule, candidate, table, column),
    }
}

/// Whether a rule holds at the schema as a whole.
fn holds_of_whole(rule: Rule, candidate: &Candidate<'_>) -> bool
    ensures { result ≡ holds rule candidate.now Site.Whole }
{
    let schema = candidate.schema();
    match rule {
        Rule::SeedAndUnits => is_seed_and_units(schema),
        Rule::TableCount => is_one_to_64(schema.tables.len()),
        _ => true,
    }
}

/// Whether a rule holds at the table at a place.
fn holds_of_table(rule: Rule, candidate: &Candidate<'_>, table: usize) -> bool
    requires { table < length candidate.now.schema.tables }
    ensures { result ≡ holds rule candidate.now (Site.OfTable table) }
{
    let schema = candidate.schema();
    let tables = schema.tables.as_slice();
    match rule {
        Rule::TableNames => is_new_table(tables, table),
        Rule::Columns => is_one_to_64(columns_at(schema, table).len()),
        Rule::RowCount => is_row_count(schema.units, &tables[table]),
        Rule::LifeRange => is_life(tables[table].life),
        Rule::UpdatePeriod => is_update_period(tables[table].update),
        Rule::RowCost => is_row_cost(candidate.facts(), table),
        Rule::LineSize => is_line_size(candidate.facts(), table),
        _ => true,
    }
}

/// Whether a rule holds at the column at a place, in the table at a place.
fn holds_of_column(rule: Rule, candidate: &Candidate<'_>, table: usize, column: usize) -> bool
    requires { IsSiteOf candidate.now.schema (Site.OfColumn table column) }
    ensures { result ≡ holds rule candidate.now (Site.OfColumn table column) }
{
    let schema = candidate.schema();
    let columns = columns_at(schema, table);
    let leaves = leaves_of(&columns[column].kind);
    match rule {
        Rule::Dictionaries => {
            let dictionaries = candidate.dictionaries();
            is_supplied_kind(candidate.names(), dictionaries, &columns[column].kind)
        }
        Rule::CitedNames => is_citable_kind(candidate.names(), &columns[column].kind),
        Rule::Columns => is_new_column(columns, column),
        Rule::KeyColumn => is_key_first(column, &columns[column].kind),
        Rule::NumberRange => are_number_ranges(leaves),
        Rule::DateRange => are_date_ranges(leaves),
        Rule::PickEntries => are_weighted(leaves),
        Rule::SkewRange => are_skew_ranges(leaves),
        Rule::LengthRange => are_length_ranges(leaves),
        Rule::TemplateParts => is_template(columns, column),
        Rule::CaseBranches => is_case(columns, column),
        Rule::StillCitations => cites_still(columns, column),
        Rule::ReferenceTargets => is_target(schema.tables.as_slice(), table, columns, column),
        Rule::ReferenceWindows => is_window(candidate, &columns[column].kind),
        Rule::ParentRows => has_parents(schema, table, &columns[column].kind),
        Rule::SpreadWeights => is_spread(&columns[column].kind),
        Rule::LookupColumns => is_lookup(schema.tables.as_slice(), columns, column),
        Rule::ChangesAndNulls => is_null_share(&columns[column]) && is_change(&columns[column]),
        Rule::UnitDates => is_unit_date(schema.units, &columns[column].kind),
        Rule::LaterDates => keeps_later_dates(candidate.facts(), table, columns, column),
        Rule::Totals => keeps_totals(candidate.facts(), table, columns, column),
        Rule::PaddedParts => are_paddings(columns, &columns[column].kind),
        _ => true,
    }
}

/// Returns the columns of the table at a place.
pub(crate) fn columns_at(schema: &Schema, table: usize) -> &[Column]
    requires { table < length schema.now.tables }
    ensures { result.now ≡ columns_at schema.now table }
{
    schema.tables.as_slice()[table].columns.as_slice()
}

fn is_seed_and_units(schema: &Schema) -> bool
    ensures { result ≡ (int_le (pos 0) schema.now.seed && is_between 0 10000 schema.now.units) }
{
    0 <= schema.seed && 0 <= schema.units && schema.units <= MAX_UNITS
}

fn is_one_to_64(items: usize) -> bool
    ensures { result ≡ is_one_to_64 items }
{
    1 <= items && items <= MAX_ITEMS
}

/// Whether the table at a place has a valid name that no table before it has.
fn is_new_table(tables: &[Table], place: usize) -> bool
    requires { place < length tables.now }
    ensures { result ≡ is_new_at (map (λ table. table.name) tables.now) place }
{
    let name = &tables[place].name;
    is_name(name) && !is_table_named(&tables[..place], name)
}

/// Whether one of some tables has this name.
fn is_table_named(tables: &[Table], name: &Text) -> bool
    ensures { result ≡ list_any (λ table. same_text table.name name.now) tables.now }
{
    tables.iter().any(|table| table.name == *name)
}

/// Whether the column at a place has a valid name that no column before it has.
pub(crate) fn is_new_column(columns: &[Column], place: usize) -> bool
    requires { place < length columns.now }
    ensures { result ≡ is_new_at (map (λ column. column.name) columns.now) place }
{
    let name = &columns[place].name;
    is_name(name) && !is_column_named(&columns[..place], name)
}

/// Whether one of some columns has this name.
fn is_column_named(columns: &[Column], name: &Text) -> bool
    ensures { result ≡ list_any (λ column. same_text column.name name.now) columns.now }
{
    columns.iter().any(|column| column.name == *name)
}

/// Whether the column at place 0 is a key with its base in range, and a column at any other place is no key.
fn is_key_first(place: usize, kind: &Kind) -> bool
    ensures { result ≡ is_key_first place kind.now }
{
    match kind {
        Kind::Key { base, .. } => place == 0 && 0 <= *base && *base <= MAX_BASE,
        _ => place > 0,
    }
}

fn is_life(life: Option<Life>) -> bool
    ensures { result ≡ is_life life }
{
    match life {
        Some(life) => 1 <= life.lo && life.lo <= life.hi && life.hi <= MAX_LIFE,
        None => true,
    }
}

fn is_update_period(update: Option<i64>) -> bool
    ensures { result ≡ is_update_period update }
{
    match update {
        Some(units) => 1 <= units && units <= MAX_UPDATE,
        None => true,
    }
}

fn is_row_cost(facts: &[TableFacts], table: usize) -> bool
    ensures { result ≡ is_known_at_most (map (λ fact. fact.cost) facts.now) table 4096 }
{
    facts.get(table).is_none_or(|known| known.cost <= MAX_COST)
}

fn is_line_size(facts: &[TableFacts], table: usize) -> bool
    ensures { result ≡ is_known_at_most (map (λ fact. fact.max_line) facts.now) table 65536 }
{
    facts
        .get(table)
        .is_none_or(|known| known.max_line <= MAX_LINE)
}

/// Whether the column at a place keeps the rule of dates after dates, where the facts of its table are known.
fn keeps_later_dates(facts: &[TableFacts], table: usize, columns: &[Column], column: usize) -> bool
    requires { column < length columns.now }
    ensures { result ≡ (nat_le (length facts.now) table
        || is_later_date (facts_in (map (λ of. of.columns) facts.now) table column).days columns.now column (kind_at columns.now column)) }
{
    table >= facts.len() || is_later_date(facts[table].column(column).days, columns, column)
}

/// Whether the column at a place keeps the rule of sums and products, where the facts of its table are known.
fn keeps_totals(facts: &[TableFacts], table: usize, columns: &[Column], column: usize) -> bool
    requires { column < length columns.now }
    ensures { result ≡ (nat_le (length facts.now) table
        || is_total (facts_in (map (λ of. of.columns) facts.now) table column).numbers columns.now column (kind_at columns.now column)) }
{
    table >= facts.len() || is_total(facts[table].column(column).numbers, columns, column)
}
