//! From a file's name to the detail table that the file declares over a plan, with the word lists that the file cites.

ghost use Rattle.std.specs.Prelude.{◌≡◌, ◌≢◌, ◌≤◌, ◌⊎◌, ◌+◌, ◌++◌, List, Ok, IfErr, IfOk, IfSome, OnOk};
ghost use Rattle.std.specs.Option.{option_map};
ghost use Rattle.dictionaries.specs.WordList.{WordList};
ghost use Rattle.plan_stages.specs.Limits.{dictionary_limit, schema_limit};
ghost use Rattle.plan_stages.specs.PlanNames.{up_to_fault, AskedAlone, AskedNone, AsksNames};
ghost use Rattle.plan_stages.specs.Stages.{ended, limit_told, told_files, Decides, IsReadOut, LibraryAfter};
ghost use Rattle.refusals.specs.Statuses.{details_status};
ghost use Rattle.detail_plan.specs.Kept.{KeepsRules};
ghost use Rattle.run_jobs.specs.Details.{broken, declared_of, detail_in, detail_of_text, detail_with_words, kept_in, kept_over, limit_at, lists_by, lists_cited, lists_named, lists_of, AsksForDetails, DetailsRead};

use detail_plan::{
    Detail, DetailFault, DetailPlan, DetailReadFault, check_detail, detail_citations, read_detail,
};
use pd_outside::{Library, read_whole};
use plan_stages::read_dictionaries;
use refusals::DetailsCause;
use schema_facts::Dictionaries;
use schema_model::Texts;
use schema_plan::Plan;
use std::alloc::Global;

/// The most bytes of a declaration: as many as a schema can have.
const DETAILS_LIMIT: u64 = 1_048_576;

/// Reads a file by its name and returns the detail table that it declares over a plan. Reads then each word list that the file cites and the
/// schema doesn't have, in the order of their first citations. Refuses with the first cause if the file declares none.
pub fn read_details<L: Library>(
    alloc: Global,
    library: &mut L,
    plan: &Plan,
    name: &str,
) -> Result<DetailPlan, DetailsCause>
    ensures detail { IfSome (told_files (L.content library.old)) (λ files. Decides details_status (λ kept. kept) result (detail_in plan.now files name.now)) }
    ensures keeps { IfOk result (KeepsRules plan.now) }
    ensures after { LibraryAfter (ended details_status result) (limit_told limit_at result) (told_files (L.content library.old)) (L.content library.new)
        (L.taken library.new) (L.is_started library.new) (L.counts library.old) (L.counts library.new) }
    ensures longer_declaration { AskedAlone name.now (L.asked library.old) (L.asked library.new) →
        (L.taken library.new ≤ schema_limit) ⊎ (ended details_status result ≡ 10) }
    ensures longer_list { L.taken library.new ≡ dictionary_limit + 1 → ended details_status result ≡ 10 }
    ensures declaration_read { ended details_status result ≡ 3 → L.taken library.new ≤ schema_limit }
    ensures asked { AsksForDetails plan.now name.now (told_files (L.content library.old)) (L.asked library.old) (L.asked library.new) }
    ensures read { IfOk result (λ kept.
        DetailsRead plan.now kept name.now (told_files (L.content library.old)) (L.asked library.old) (L.asked library.new)) }
    ensures unasked { AskedNone (L.asked library.old) (L.asked library.new) → L.taken library.new ≤ L.taken library.old }
{
    let bytes = read_whole(alloc, library, name, DETAILS_LIMIT)?;
    detail_of_text(alloc, library, plan, &bytes)
}

/// Returns the detail table that a declaration's bytes declare over a plan. The bytes are the whole file.
fn detail_of_text<L: Library>(
    alloc: Global,
    library: &mut L,
    plan: &Plan,
    bytes: &[u8],
) -> Result<DetailPlan, DetailsCause>
    requires taken { L.taken library.old ≤ schema_limit }
    requires read_out { IsReadOut (L.content library.old) }
    ensures detail { IfSome (told_files (L.content library.old)) (λ files. Decides details_status (λ kept. kept) result (detail_of_text plan.now files bytes.now)) }
    ensures keeps { IfOk result (KeepsRules plan.now) }
    ensures after { LibraryAfter (ended details_status result) (limit_told limit_at result) (told_files (L.content library.old)) (L.content library.new)
        (L.taken library.new) (L.is_started library.new) (L.counts library.old) (L.counts library.new) }
    ensures longer { L.taken library.new ≡ dictionary_limit + 1 → ended details_status result ≡ 10 }
    ensures declaration_read { ended details_status result ≡ 3 → L.taken library.new ≤ schema_limit }
    ensures asked { AsksNames (lists_by plan.now (declared_of bytes.now)) (told_files (L.content library.old)) (L.asked library.old) (L.asked library.new) }
    ensures asked_all { OnOk result (L.asked library.new ≡ option_map (λ all. all ++ lists_by plan.now (declared_of bytes.now)) (L.asked library.old)) }
    ensures readable { OnOk result (IfSome (told_files (L.content library.old)) (λ files.
        up_to_fault files (lists_by plan.now (declared_of bytes.now)) ≡ lists_by plan.now (declared_of bytes.now))) }
    ensures read { IfOk result (λ kept. (words : List WordList) × (detail_with_words plan.now bytes.now words ≡ Ok kept)) }
    ensures unasked { AskedNone (L.asked library.old) (L.asked library.new) → L.taken library.new ≤ L.taken library.old }
{
    let detail = declared_of(alloc, bytes)?;
    kept_in(alloc, library, plan, detail)
}

/// Returns the detail table that a declaration's bytes declare, whether its rules hold or not.
fn declared_of(alloc: Global, bytes: &[u8]) -> Result<Detail, DetailsCause>
    ensures declared { Decides details_status (λ detail. detail) result (declared_of bytes.now) }
    ensures range { IfErr result (λ cause. (details_status cause ≡ 3) ⊎ (details_status cause ≡ 7)) }
{
    match read_detail(alloc, bytes) {
        Ok(detail) => Ok(detail),
        Err(DetailReadFault::Syntax) => Err(DetailsCause::Syntax),
        Err(DetailReadFault::WrongForm) => Err(DetailsCause::WrongForm),
        Err(DetailReadFault::Memory) => Err(DetailsCause::Memory),
    }
}

/// Returns a detail table with its word lists, if its rules hold over a plan. It reads each word list that the schema doesn't have.
fn kept_in<L: Library>(
    alloc: Global,
    library: &mut L,
    plan: &Plan,
    detail: Detail,
) -> Result<DetailPlan, DetailsCause>
    requires taken { L.taken library.old ≤ schema_limit }
    requires read_out { IsReadOut (L.content library.old) }
    ensures detail { IfSome (told_files (L.content library.old)) (λ files. Decides details_status (λ kept. kept) result (kept_in plan.now files detail)) }
    ensures keeps { IfOk result (KeepsRules plan.now) }
    ensures after { LibraryAfter (ended details_status result) (limit_told limit_at result) (told_files (L.content library.old)) (L.content library.new)
        (L.taken library.new) (L.is_started library.new) (L.counts library.old) (L.counts library.new) }
    ensures longer { L.taken library.new ≡ dictionary_limit + 1 → ended details_status result ≡ 10 }
    ensures of_the_form { ended details_status result ≢ 3 }
    ensures asked { AsksNames (lists_of plan.now detail) (told_files (L.content library.old)) (L.asked library.old) (L.asked library.new) }
    ensures asked_all { OnOk result (L.asked library.new ≡ option_map (λ all. all ++ lists_of plan.now detail) (L.asked library.old)) }
    ensures readable { OnOk result (IfSome (told_files (L.content library.old)) (λ files. up_to_fault files (lists_of plan.now detail) ≡ lists_of plan.now detail)) }
    ensures read { IfOk result (λ kept. (words : List WordList)
        × (kept_over plan.now detail (plan.now.dictionaries ++ lists_named (lists_of plan.now detail) words) ≡ Ok kept)) }
    ensures unasked { AskedNone (L.asked library.old) (L.asked library.new) → L.taken library.new ≤ L.taken library.old }
{
    let names = lists_cited(alloc, plan, &detail)?;
    let lists = read_dictionaries(alloc, library, plan.dictionaries(), &names)?;
    kept_over(alloc, plan, detail, lists)
}

/// Returns the names of the word lists that a detail table cites and the schema doesn't have.
fn lists_cited(alloc: Global, plan: &Plan, detail: &Detail) -> Result<Texts, DetailsCause>
    ensures cited { Decides details_status (λ names. names) result (lists_cited plan.now detail.now) }
    ensures range { IfErr result (λ cause. (details_status cause ≡ 4) ⊎ (details_status cause ≡ 7)) }
{
    match detail_citations(alloc, plan, detail) {
        Ok(names) => Ok(names),
        Err(fault) => Err(broken(fault)),
    }
}

/// Returns a detail table with word lists after the schema's, if its rules hold over a plan.
fn kept_over(
    alloc: Global,
    plan: &Plan,
    detail: Detail,
    lists: Dictionaries,
) -> Result<DetailPlan, DetailsCause>
    ensures kept { Decides details_status (λ kept. kept) result (kept_over plan.now detail (plan.now.dictionaries ++ lists)) }
    ensures keeps { IfOk result (KeepsRules plan.now) }
    ensures range { IfErr result (λ cause. (details_status cause ≡ 4) ⊎ (details_status cause ≡ 7)) }
{
    match check_detail(alloc, plan, detail, lists) {
        Ok(kept) => Ok(kept),
        Err(fault) => Err(broken(fault)),
    }
}

/// Returns the cause that a broken rule is.
fn broken(fault: DetailFault) -> DetailsCause
    ensures { result ≡ broken fault }
{
    match fault {
        DetailFault::Rule { number } => DetailsCause::Rule(number),
        DetailFault::Memory => DetailsCause::Memory,
    }
}
