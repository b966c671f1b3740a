//! The top call.

ghost use Rattle.std.specs.Prelude.{◌≡◌, ◌≢◌, ◌≤◌, ◌+◌, ◌⊎◌, ◌↔◌, ℕ, List, [], false, true, map, string_bytes, IfErr, IfOk, IfSome, IsErr, IsOk, IsOkAnd, IsTrue};
ghost use Rattle.std.specs.Option.{option_map};
ghost use Rattle.pd_outside.specs.Faults.{FailedAtLast, Unfailed};
ghost use Rattle.pd_outside.specs.Library.{Content, left};
ghost use Rattle.pd_outside.specs.Shelf.{HoldsPrefixOf};
ghost use Rattle.plan_stages.specs.Limits.{dictionary_limit, schema_limit};
ghost use Rattle.plan_stages.specs.PlanNames.{AskedAlone};
ghost use Rattle.plan_stages.specs.Plans.{plan_in};
ghost use Rattle.plan_stages.specs.Stages.{told_files};
ghost use Rattle.refusals.specs.Messages.{fixed_text, message_of};
ghost use Rattle.refusals.specs.Statuses.{is_status};
ghost use Rattle.request_words.specs.Words.{request};
ghost use Rattle.request_words.specs.declared.usage.Mode.TheVariants.{Apply, DetailsApply, Revert};
ghost use Rattle.fill_jobs.specs.Playing.{IsBrokenOff, is_play, played_store, plays_for};
ghost use Rattle.pdgf_run.specs.ReadingList.{AsksInTurn, reads_on, reads_schema};
ghost use Rattle.pdgf_run.specs.TopCall.{Carries, GivesEarlier, GivesLater, GivesLaterDetails, IsPastLimit, reads_for};
ghost use Rattle.pdgf_run.specs.Verdict.{WhereTold, WhereUnread};
ghost use Rattle.run_jobs.specs.InputFiles.{input_limit};

use crate::carry_out::carry_out;
use crate::decide::decide;
use crate::report::refused;
use crate::{Refusal, Report};
use pd_outside::{Gate, Library, Shelf};
use row_keeper::Keeper;
use std::alloc::Global;
use std::thread::Threads;

/// Does all that the program does: reads the words, reads the files that they name, and writes the due files. The first word is the
/// program's name. As many workers make the lines as the words ask for. Each package of lines enters the gate once, before it is
/// made.
///
/// The definition `IsVerdict` says what words and files come to: due files, or a refusal. The due files come from a plain
/// simulation that steps from unit to unit, or from texts to which streams or undo texts are applied. The statuses are:
/// - 0: all is done.
/// - 2: the words give no request.
/// - 3: the text of the schema or of the declaration has the wrong form.
/// - 4: the schema or the declaration breaks a rule, or a cited file is no dictionary.
/// - 5: a read failed.
/// - 6: a write failed.
/// - 7: memory ran out.
/// - 8: an option's value is out of range.
/// - 9: an input can't be applied or undone.
/// - 10: a schema, a dictionary, a declaration or an input is too long.
/// - 12: the store into which units are played failed.
///
/// If a library, a shelf or a keeper doesn't tell what it holds, the clauses say nothing of what depends on its contents. If it doesn't
/// count its failed calls exactly, they say only that the count of faults rose.
pub fn pdgf<R: Threads + Sync, L: Library, S: Shelf, G: Gate + Sync, K: Keeper>(
    rt: &R,
    alloc: Global,
    words: &[String],
    library: &mut L,
    shelf: &mut S,
    gate: &G,
    keeper: &mut K,
) -> Report
    requires none_begun { S.is_begun shelf.old ≡ false }
    requires closed { (K.store keeper.old).is_open ≡ false }

    // The headline: unless a read, a write, an allocation or the store failed, the report and the finished files are the verdict's.
    ensures verdict { result.status ≢ 5 → result.status ≢ 6 → result.status ≢ 7 → result.status ≢ 12 →
        WhereTold (map string_bytes words.now) (L.content library.old)
        (λ verdict. Carries verdict result (S.held shelf.old) (S.held shelf.new)) }

    // What reads no file, as bad words and a sample, comes to the same whatever the library tells.
    ensures verdict_unread { result.status ≢ 5 → result.status ≢ 6 → result.status ≢ 7 → result.status ≢ 12 → reads_for (request (map string_bytes words.now)) ≡ false →
        WhereUnread (map string_bytes words.now) (λ verdict. Carries verdict result (S.held shelf.old) (S.held shelf.new)) }

    // If the files that mode apply reads hold what the simulation gives, the finished files hold what it gives at the later unit.
    ensures applied { result.status ≢ 5 → result.status ≢ 6 → result.status ≢ 7 → IfOk (request (map string_bytes words.now)) (λ asked. asked.mode ≡ Apply →
        IfSome (told_files (L.content library.old)) (λ files. GivesLater asked files result (S.held shelf.old) (S.held shelf.new))) }

    // The same for mode details-apply and a detail table.
    ensures details_applied { result.status ≢ 5 → result.status ≢ 6 → result.status ≢ 7 → IfOk (request (map string_bytes words.now)) (λ asked. asked.mode ≡ DetailsApply →
        IfSome (told_files (L.content library.old)) (λ files. GivesLaterDetails asked files result (S.held shelf.old) (S.held shelf.new))) }

    // If the files that mode revert reads hold what the simulation gives and the undo texts back to an earlier unit, the finished
    // files hold what it gives at that unit.
    ensures reverted { result.status ≢ 5 → result.status ≢ 6 → result.status ≢ 7 → IfOk (request (map string_bytes words.now)) (λ asked. asked.mode ≡ Revert →
        IfSome (told_files (L.content library.old)) (λ files. GivesEarlier asked files result (S.held shelf.old) (S.held shelf.new))) }

    // Each status has its cause.
    ensures known { IsTrue (is_status result.status) }
    ensures message { IfSome (fixed_text result.status) (λ text. result.message ≡ text) }
    ensures usage { (result.status ≡ 2) ↔ IsErr (request (map string_bytes words.now)) }
    ensures usage_text { IfErr (request (map string_bytes words.now)) (λ fault. result.message ≡ message_of (Refusal.Words fault)) }
    ensures too_long { result.status ≡ 10 → IsPastLimit result.message (L.taken library.new) }
    ensures longer_schema { IfOk (request (map string_bytes words.now)) (λ request. AskedAlone request.schema (L.asked library.old) (L.asked library.new) →
        L.taken library.new ≡ schema_limit + 1 → result.status ≡ 10) }
    ensures longer_dictionary { IfOk (request (map string_bytes words.now)) (λ request. reads_schema request.mode ≡ true → reads_on request.mode ≡ false →
        result.status ≢ 7 → L.taken library.new ≡ dictionary_limit + 1 → result.status ≡ 10) }
    ensures read_within { IfOk (request (map string_bytes words.now)) (λ asked. reads_schema asked.mode ≡ true →
        (result.status ≡ 0) ⊎ (result.status ≡ 9) → L.taken library.new ≤ input_limit) }
    ensures schema_read { result.status ≡ 3 → L.taken library.new ≤ schema_limit }
    ensures read_failed { result.status ≡ 5 → FailedAtLast (L.counts library.old) (L.counts library.new) }
    ensures read_unfailed { result.status ≢ 5 → Unfailed (L.counts library.old) (L.counts library.new) }
    ensures stopped { result.status ≡ 5 → L.is_started library.new ≡ false }
    ensures write_failed { result.status ≡ 6 → FailedAtLast (S.counts shelf.old) (S.counts shelf.new) }
    ensures write_unfailed { result.status ≢ 6 → Unfailed (S.counts shelf.old) (S.counts shelf.new) }

    // After a failed write a prefix of the due files stands, and the verdict is these due files.
    ensures prefix { result.status ≡ 6 → WhereTold (map string_bytes words.now) (L.content library.old)
        (λ verdict. IsOkAnd verdict (λ due. HoldsPrefixOf due (S.held shelf.old) (S.held shelf.new))) }

    // Any status but 0 and 6 leaves the shelf as it was.
    ensures unwritten { result.status ≢ 0 → result.status ≢ 6 → shelf.new ≡ shelf.old }
    ensures none_begun { result.status ≢ 6 → S.is_begun shelf.new ≡ false }

    // The library stays as it was if the words give no request, or ask for a sample, which has a schema of its own.
    ensures unread { reads_for (request (map string_bytes words.now)) ≡ false → library.new ≡ library.old }

    // Only names of the reading list are started, in its order. At status 0 the last file is read to its end.
    ensures asked { AsksInTurn (request (map string_bytes words.now)) (told_files (L.content library.old)) (L.asked library.old) (L.asked library.new) }
    ensures read_out { IfOk (request (map string_bytes words.now)) (λ asked. reads_schema asked.mode ≡ true → result.status ≡ 0 →
        option_map left (L.content library.new) ≡ option_map (λ (c : Content). []) (L.content library.old)) }
    ensures files { told_files (L.content library.new) ≡ told_files (L.content library.old) }

    // Only mode play touches the keeper, and only if the request isn't refused.
    ensures unplayed { plays_for (request (map string_bytes words.now)) ≡ false → keeper.new ≡ keeper.old }
    ensures keeper_kept { result.status ≢ 0 → result.status ≢ 6 → result.status ≢ 7 → result.status ≢ 12 → keeper.new ≡ keeper.old }

    // Once the files are due, the keeper is finished: it has exactly the rows that the tables hold at the request's unit.
    ensures played { (result.status ≡ 0) ⊎ (result.status ≡ 6) → IfOk (request (map string_bytes words.now)) (λ asked. is_play asked.mode ≡ true →
        IfSome (told_files (L.content library.old)) (λ files. IfOk (plan_in files asked.schema) (λ plan.
        K.store keeper.new ≡ played_store plan asked.to asked.store (K.store keeper.old)))) }
    ensures named { (result.status ≡ 0) ⊎ (result.status ≡ 6) → IfOk (request (map string_bytes words.now)) (λ asked. is_play asked.mode ≡ true →
        (K.store keeper.new).name ≡ option_map (λ (last : List ℕ). asked.store) (K.store keeper.old).name) }

    // If a call of the keeper failed, or memory ran out, the keeper stays open after some statements, or is as it was.
    ensures broken_off { (K.store keeper.new).is_open ≡ true → IfOk (request (map string_bytes words.now)) (λ asked.
        IfSome (told_files (L.content library.old)) (λ files. IfOk (plan_in files asked.schema) (λ plan.
        IsBrokenOff plan asked.to asked.store (K.store keeper.old) (K.store keeper.new)))) }
    ensures left_open { (K.store keeper.new).is_open ≡ true → (result.status ≡ 7) ⊎ (result.status ≡ 12) }
    ensures not_opened { (result.status ≡ 7) ⊎ (result.status ≡ 12) → (K.store keeper.new).is_open ≡ false → K.store keeper.new ≡ K.store keeper.old }
    ensures keeper_failed { result.status ≡ 12 → FailedAtLast (K.counts keeper.old) (K.counts keeper.new) }
    ensures keeper_unfailed { result.status ≢ 12 → Unfailed (K.counts keeper.old) (K.counts keeper.new) }
    ensures keeper_due { result.status ≡ 12 → WhereTold (map string_bytes words.now) (L.content library.old) IsOk }
{
    match decide(rt, alloc, words, library, gate) {
        Ok(task) => carry_out(rt, alloc, task, shelf, gate, keeper),
        Err(refusal) => refused(refusal),
    }
}
