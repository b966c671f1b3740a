//! From a schema's name to its plan.

ghost use Rattle.std.specs.Prelude.{◌≡◌, ◌≢◌, ◌≤◌, ◌⊎◌, ◌+◌, ◌++◌, IfOk, IfSome, OnOk};
ghost use Rattle.std.specs.Option.{option_map};
ghost use Rattle.schema_read.specs.Schema.{schema_of};
ghost use Rattle.plan_stages.specs.DictionaryFiles.{names_of};
ghost use Rattle.plan_stages.specs.Limits.{dictionary_limit, schema_limit};
ghost use Rattle.plan_stages.specs.PlanNames.{cited_by, cited_by_read, up_to_fault, AskedAlone, AskedNone, AsksForPlan, AsksNames, PlanRead};
ghost use Rattle.plan_stages.specs.Plans.{limit_at, plan_in, plan_of_text, planned};
ghost use Rattle.plan_stages.specs.Stages.{ended, limit_told, told_files, Decides, IsReadOut, LibraryAfter};
ghost use Rattle.refusals.specs.Statuses.{plan_status};

use crate::dictionary_files::read_dictionaries;
use pd_outside::{Library, read_whole};
use refusals::PlanFault;
use schema_check::{check, citations};
use schema_facts::Dictionaries;
use schema_model::Schema;
use schema_plan::Plan;
use schema_read::read_schema;
use std::alloc::Global;

/// The most bytes of a schema's text.
const SCHEMA_LIMIT: u64 = 1_048_576;

/// Makes the plan of the schema in the file of this name. It reads that file, and then each word list that the schema cites,
/// in the order of their first citations, up to the first fault.
///
/// The schema's text has at most 1,048,576 bytes, and a word list at most 16,777,216. `Reading` means that the text wasn't
/// read, and `Schema` that it is no schema. `Dictionary` means that a word list isn't read; word lists count from 1. `Check`
/// means that the schema breaks a rule. Each comes only if nothing is wrong before. Any of them can also tell that memory is
/// wanting. If the library doesn't tell its files, the clauses say only what can be said.
pub fn plan_of<L: Library>(alloc: Global, library: &mut L, name: &str) -> Result<Plan, PlanFault>
    ensures plan { IfSome (told_files (L.content library.old)) (λ files. Decides plan_status (λ plan. plan) result (plan_in files name.now)) }
    ensures after { LibraryAfter (ended plan_status result) (limit_told limit_at result) (told_files (L.content library.old)) (L.content library.new)
        (L.taken library.new) (L.is_started library.new) (L.counts library.old) (L.counts library.new) }

    // The bytes taken tell which file was too long, and that the schema's file wasn't.
    ensures longer_schema { AskedAlone name.now (L.asked library.old) (L.asked library.new) →
        (L.taken library.new ≤ schema_limit) ⊎ (ended plan_status result ≡ 10) }
    ensures longer_dictionary { L.taken library.new ≡ dictionary_limit + 1 → ended plan_status result ≡ 10 }
    ensures schema_read { ended plan_status result ≡ 3 → L.taken library.new ≤ schema_limit }

    // Only the schema's name and the names that it cites are asked, in turn, and none after the first at fault.
    ensures asked { AsksForPlan name.now (told_files (L.content library.old)) (L.asked library.old) (L.asked library.new) }

    // A plan tells which text was read, and that each of these names was asked.
    ensures read { IfOk result (λ plan.
        PlanRead plan.schema name.now (told_files (L.content library.old)) (L.asked library.old) (L.asked library.new)) }
    ensures named { IfOk result (λ plan. names_of plan.dictionaries ≡ cited_by plan.schema) }
{
    let bytes = read_whole(alloc, library, name, SCHEMA_LIMIT)?;
    plan_of_text(alloc, library, &bytes)
}

/// Makes the plan of a schema's text, which was read to its end.
fn plan_of_text<L: Library>(alloc: Global, library: &mut L, bytes: &[u8]) -> Result<Plan, PlanFault>
    requires taken { L.taken library.old ≤ schema_limit }
    requires read_out { IsReadOut (L.content library.old) }
    ensures plan { IfSome (told_files (L.content library.old)) (λ files. Decides plan_status (λ plan. plan) result (plan_of_text files bytes.now)) }
    ensures after { LibraryAfter (ended plan_status result) (limit_told limit_at result) (told_files (L.content library.old)) (L.content library.new)
        (L.taken library.new) (L.is_started library.new) (L.counts library.old) (L.counts library.new) }
    ensures longer { L.taken library.new ≡ dictionary_limit + 1 → ended plan_status result ≡ 10 }
    ensures schema_read { ended plan_status result ≡ 3 → L.taken library.new ≤ schema_limit }
    ensures asked { AsksNames (cited_by_read (schema_of bytes.now)) (told_files (L.content library.old)) (L.asked library.old) (L.asked library.new) }
    ensures asked_all { OnOk result (L.asked library.new ≡ option_map (λ all. all ++ cited_by_read (schema_of bytes.now)) (L.asked library.old)) }
    ensures readable { OnOk result (IfSome (told_files (L.content library.old)) (λ files.
        up_to_fault files (cited_by_read (schema_of bytes.now)) ≡ cited_by_read (schema_of bytes.now))) }
    ensures read { IfOk result (λ plan. schema_of bytes.now ≡ Ok plan.schema) }
    ensures named { IfOk result (λ plan. names_of plan.dictionaries ≡ cited_by plan.schema) }
    ensures unasked { AskedNone (L.asked library.old) (L.asked library.new) → L.taken library.new ≤ L.taken library.old }
{
    let schema = read_schema(alloc, bytes)?;
    plan_of_schema(alloc, library, schema)
}

/// Makes the plan of a schema. It reads each dictionary that the schema cites.
fn plan_of_schema<L: Library>(
    alloc: Global,
    library: &mut L,
    schema: Schema,
) -> Result<Plan, PlanFault>
    requires taken { L.taken library.old ≤ schema_limit }
    requires read_out { IsReadOut (L.content library.old) }
    ensures plan { IfSome (told_files (L.content library.old)) (λ files. Decides plan_status (λ plan. plan) result (planned files schema)) }
    ensures after { LibraryAfter (ended plan_status result) (limit_told limit_at result) (told_files (L.content library.old)) (L.content library.new)
        (L.taken library.new) (L.is_started library.new) (L.counts library.old) (L.counts library.new) }
    ensures longer { L.taken library.new ≡ dictionary_limit + 1 → ended plan_status result ≡ 10 }
    ensures is_schema { ended plan_status result ≢ 3 }
    ensures asked { AsksNames (cited_by schema) (told_files (L.content library.old)) (L.asked library.old) (L.asked library.new) }
    ensures asked_all { OnOk result (L.asked library.new ≡ option_map (λ all. all ++ cited_by schema) (L.asked library.old)) }
    ensures readable { OnOk result (IfSome (told_files (L.content library.old)) (λ files. up_to_fault files (cited_by schema) ≡ cited_by schema)) }
    ensures of_schema { IfOk result (λ plan. plan.schema ≡ schema) }
    ensures named { IfOk result (λ plan. names_of plan.dictionaries ≡ cited_by schema) }
    ensures unasked { AskedNone (L.asked library.old) (L.asked library.new) → L.taken library.new ≤ L.taken library.old }
{
    let names = citations(alloc, &schema)?;
    let dictionaries = read_dictionaries(alloc, library, &Dictionaries::new(alloc), &names)?;
    Ok(check(alloc, schema, dictionaries)?)
}
