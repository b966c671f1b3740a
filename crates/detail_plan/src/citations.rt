//! The word lists that a detail table's file cites.

ghost use Rattle.std.specs.Prelude.{◌≡◌, ◌≢◌, None, Some, IfErr, IfOk, filter};
ghost use Rattle.detail_plan.specs.Rules.{citations_of, is_new_list};

use crate::beside::columns_beside;
use crate::check::DetailFault;
use crate::detail::Detail;
use out_of_memory::Memory;
use schema_check::column_citations;
use schema_model::{Text, Texts};
use schema_plan::Plan;
use std::alloc::Global;

/// Returns the names of the word lists that a detail table's file cites and the schema doesn't have, each once, in the order of their first
/// citations. Refuses by the rule of word lists if the file can't cite one. A name has 1 to 255 bytes, and at most 64 different names are
/// cited.
pub fn detail_citations(alloc: Global, plan: &Plan, detail: &Detail) -> Result<Texts, DetailFault>
    ensures names { IfOk result (λ names. citations_of plan.now detail.now ≡ Some names) }
    ensures refused { IfErr result (λ fault. fault ≢ DetailFault.Memory → (fault ≡ DetailFault.Rule 6) × (citations_of plan.now detail.now ≡ None)) }
{
    let columns = columns_beside(alloc, detail)?;
    match column_citations(alloc, columns.as_slice())? {
        Some(names) => Ok(new_lists(alloc, plan, names.as_slice())?),
        None => Err(DetailFault::Rule { number: 6 }),
    }
}

/// Returns those of some names that no word list of the schema has, in order.
fn new_lists(alloc: Global, plan: &Plan, names: &[Text]) -> Result<Texts, Memory>
    ensures { IfOk result (λ found. found ≡ filter (is_new_list plan.now) names.now) }
{
    let lists = plan.dictionaries();
    let mut found = Texts::new(alloc);
    for name in names {
        if !lists.has(name.as_str()) {
            found.push(Text::of(alloc, name.as_str())?)?;
        }
    }
    Ok(found)
}
