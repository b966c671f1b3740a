//! The check of a schema.

ghost use Rattle.std.specs.Prelude.{◌≡◌, ◌≢◌, ◌≤◌, None, Some, IfErr, IfOk, IfSome, OnOk};
ghost use Rattle.schema_facts.specs.Capped.{first_facts};
ghost use Rattle.schema_plan.specs.Citations.{cited_names};
ghost use Rattle.schema_facts.specs.Dictionaries.{project_of};
ghost use Rattle.schema_check.specs.Faults.{citation_refusal, refusal_of, told, Tells};
ghost use Rattle.schema_plan.specs.Rules.{IsAccepted};
ghost use Rattle.schema_plan.specs.Sites.{column_number, IsSiteOf};

use crate::candidate::Candidate;
use crate::rules::{columns_at, first_break, first_broken};
use schema_facts::{Dictionaries, MAX_ITEMS, NO_FACTS, TableFacts, fill_facts};
use schema_model::{Schema, Texts};
use schema_plan::{Broken, CitedNames, Plan, Rule, Site, copied_names};
use std::alloc::Global;

/// Why a schema has no plan.
#[derive(Clone, Copy, Debug, PartialEq, Eq)]
pub enum CheckFault {
    /// The first broken rule, at the first table and column that break it. The number 1 means V1. Tables and columns count from
    /// 1, and 0 means that there is none.
    Rule {
        number: u32,
        table: u64,
        column: u64,
    },
    /// No memory was left for the plan of an accepted schema.
    Memory,
}

/// Returns the names of the dictionaries that a schema cites, each once, in the order of their first citations. Refuses by the
/// rule of dictionaries if the schema can't cite them. A name has 1 to 255 bytes, and at most 64 different names are cited.
/// Refuses with `Memory` only if the schema can cite them.
pub fn citations(alloc: Global, schema: &Schema) -> Result<Texts, CheckFault>
    ensures names { IfOk result (λ names. names ≡ cited_names schema.now.tables) }
    ensures citable { OnOk result (citation_refusal schema.now ≡ None) }
    ensures refused { IfErr result (λ fault. fault ≢ CheckFault.Memory → citation_refusal schema.now ≡ Some fault) }
    ensures memory { IfErr result (λ fault. fault ≡ CheckFault.Memory → citation_refusal schema.now ≡ None) }
{
    let dictionaries = Dictionaries::new(alloc);
    let names = CitedNames::of(schema);
    let mut facts = [NO_FACTS; MAX_ITEMS];
    let count = schema.tables.len().min(MAX_ITEMS);
    fill_facts(schema, &dictionaries, &mut facts[..count]);
    let candidate = Candidate::new(schema, &dictionaries, &names, &facts[..count]);
    if let Some(site) = first_break(Rule::CitedNames, &candidate) {
        let rule = Rule::CitedNames;
        return Err(fault_of(schema, Broken { rule, site }));
    }
    match copied_names(alloc, &names) {
        Ok(names) => Ok(names),
        Err(_) => Err(CheckFault::Memory),
    }
}

/// Returns the plan of a schema that keeps all rules with its dictionaries. Refuses any other schema for the first rule that it
/// breaks, at its first site. At a fault the schema and the dictionaries are dropped.
pub fn check(alloc: Global, schema: Schema, dictionaries: Dictionaries) -> Result<Plan, CheckFault>
    ensures plan { IfOk result (λ plan. plan ≡ project_of schema dictionaries) }
    ensures accepted { OnOk result (IsAccepted (project_of schema dictionaries)) }
    ensures refused { IfErr result (λ fault. Tells fault (project_of schema dictionaries)) }
{
    let mut facts = [NO_FACTS; MAX_ITEMS];
    let count = schema.tables.len().min(MAX_ITEMS);
    fill_facts(&schema, &dictionaries, &mut facts[..count]);
    if let Some(fault) = first_fault(&schema, &dictionaries, &facts[..count]) {
        return Err(fault);
    }
    let _lists = dictionaries.len(); // each is a word list
    match Plan::of_accepted(alloc, schema, dictionaries, &facts[..count]) {
        Ok(plan) => Ok(plan),
        Err(_) => Err(CheckFault::Memory),
    }
}

/// Returns the first rule that a schema breaks with its dictionaries, as a fault.
pub(crate) fn first_fault(
    schema: &Schema,
    dictionaries: &Dictionaries,
    facts: &[TableFacts],
) -> Option<CheckFault>
    requires { facts.now ≡ first_facts (project_of schema.now dictionaries.now) }
    ensures first { result ≡ refusal_of (project_of schema.now dictionaries.now) }
    ensures rule { IfSome result (λ fault. fault ≢ CheckFault.Memory) }
{
    let names = CitedNames::of(schema);
    let candidate = Candidate::new(schema, dictionaries, &names, facts);
    match first_broken(&candidate) {
        Some(broken) => Some(fault_of(schema, broken)),
        None => None,
    }
}

/// Returns a broken rule of a schema as a fault.
pub(crate) fn fault_of(schema: &Schema, broken: Broken) -> CheckFault
    requires { IsSiteOf schema.now broken.site }
    ensures { result ≡ told broken }
{
    let _tables = schema.tables.len();
    let _columns = columns_beside(schema, broken.site);
    CheckFault::Rule {
        number: broken.rule.number(),
        table: broken.site.table_number(),
        column: broken.site.column_number(),
    }
}

/// Returns how many columns the table of a column's site has, a bound on the column's number. Any other site gives 0.
fn columns_beside(schema: &Schema, site: Site) -> usize
    requires { IsSiteOf schema.now site }
    ensures { column_number site ≤ result }
{
    match site {
        Site::OfColumn(table, _) => columns_at(schema, table).len(),
        _ => 0,
    }
}
