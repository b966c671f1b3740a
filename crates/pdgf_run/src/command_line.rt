//! The program's run: from the words as the system gives them to the report.

ghost use Rattle.std.specs.Prelude.{◌≡◌, ◌≢◌, ◌≤◌, ◌+◌, ◌⊎◌, ◌↔◌, ℕ, List, [], false, true, map, string_bytes, IfErr, IfOk, IfSome, IsErr, IsOk, IsOkAnd, IsTrue, OnErr};
ghost use Rattle.std.specs.IoError.{error_kind};
ghost use Rattle.std.specs.Option.{option_map};
ghost use Rattle.pd_outside.specs.Faults.{FailedAtLast, Unfailed};
ghost use Rattle.pd_outside.specs.Library.{Content, left};
ghost use Rattle.pd_outside.specs.Shelf.{HoldsPrefixOf};
ghost use Rattle.plan_stages.specs.Limits.{dictionary_limit, schema_limit};
ghost use Rattle.plan_stages.specs.PlanNames.{AskedAlone};
ghost use Rattle.plan_stages.specs.Plans.{plan_in};
ghost use Rattle.plan_stages.specs.Stages.{told_files};
ghost use Rattle.refusals.specs.Messages.{fixed_text, message_of};
ghost use Rattle.refusals.specs.Statuses.{is_status};
ghost use Rattle.request_words.specs.Words.{request};
ghost use Rattle.request_words.specs.declared.usage.Mode.TheVariants.{Apply, DetailsApply, Revert};
ghost use Rattle.fill_jobs.specs.Playing.{IsBrokenOff, is_play, played_store, plays_for};
ghost use Rattle.pdgf_run.specs.ReadingList.{AsksInTurn, reads_on, reads_schema};
ghost use Rattle.pdgf_run.specs.TopCall.{Carries, GivesEarlier, GivesLater, GivesLaterDetails, IsPastLimit, reads_for};
ghost use Rattle.pdgf_run.specs.Verdict.{WhereTold, WhereUnread};
ghost use Rattle.run_jobs.specs.InputFiles.{input_limit};

use crate::report::refused;
use crate::run::pdgf;
use crate::{Refusal, Report, UsageFault};
use pd_outside::{Library, OpenGate, Shelf};
use row_keeper::Keeper;
use std::alloc::Global;
use std::io;
use std::io::ErrorKind;
use std::thread::Threads;

/// Runs the program with its words as the system gives them, the program's name first. If all words are text, does what `pdgf`
/// does. Reports bad words if one isn't UTF-8, and want of memory if the words found no memory.
pub fn run_program<R: Threads + Sync, L: Library, S: Shelf, K: Keeper>(
    rt: &R,
    alloc: Global,
    words: io::Result<Vec<String>>,
    library: &mut L,
    shelf: &mut S,
    keeper: &mut K,
) -> Report
    requires none_begun { S.is_begun shelf.old ≡ false }
    requires closed { (K.store keeper.old).is_open ≡ false }

    // Words that can't be read: one isn't UTF-8, or there was no memory for them. Then nothing is read or written.
    ensures not_utf8 { IfErr words (λ error. error_kind error ≢ ErrorKind.OutOfMemory →
        result ≡ record { status = 2; message = message_of (Refusal.Words UsageFault.Words) }) }
    ensures no_memory { IfErr words (λ error. error_kind error ≡ ErrorKind.OutOfMemory →
        result ≡ record { status = 7; message = message_of (Refusal.Words UsageFault.Memory) }) }
    ensures nothing_read { OnErr words (library.new ≡ library.old) }
    ensures nothing_written { OnErr words (shelf.new ≡ shelf.old) }
    ensures nothing_kept { OnErr words (keeper.new ≡ keeper.old) }

    // For words that are read, all that `pdgf` promises. The headline: unless a read, a write, an allocation or the store failed,
    // the report and the finished files are the verdict's.
    ensures verdict { IfOk words (λ words. result.status ≢ 5 → result.status ≢ 6 → result.status ≢ 7 → result.status ≢ 12 →
        WhereTold (map string_bytes words.items) (L.content library.old)
        (λ verdict. Carries verdict result (S.held shelf.old) (S.held shelf.new))) }

    // What reads no file, as bad words and a sample, comes to the same whatever the library tells.
    ensures verdict_unread { IfOk words (λ words. result.status ≢ 5 → result.status ≢ 6 → result.status ≢ 7 → result.status ≢ 12 →
        reads_for (request (map string_bytes words.items)) ≡ false →
        WhereUnread (map string_bytes words.items) (λ verdict. Carries verdict result (S.held shelf.old) (S.held shelf.new))) }

    // If the files that mode apply reads hold what the simulation gives, the finished files hold what it gives at the later unit.
    ensures applied { IfOk words (λ words. result.status ≢ 5 → result.status ≢ 6 → result.status ≢ 7 →
        IfOk (request (map string_bytes words.items)) (λ asked. asked.mode ≡ Apply →
        IfSome (told_files (L.content library.old)) (λ files. GivesLater asked files result (S.held shelf.old) (S.held shelf.new)))) }

    // The same for mode details-apply and a detail table.
    ensures details_applied { IfOk words (λ words. result.status ≢ 5 → result.status ≢ 6 → result.status ≢ 7 →
        IfOk (request (map string_bytes words.items)) (λ asked. asked.mode ≡ DetailsApply →
        IfSome (told_files (L.content library.old)) (λ files. GivesLaterDetails asked files result (S.held shelf.old) (S.held shelf.new)))) }

    // If the files that mode revert reads hold what the simulation gives and the undo texts back to an earlier unit, the finished
    // files hold what it gives at that unit.
    ensures reverted { IfOk words (λ words. result.status ≢ 5 → result.status ≢ 6 → result.status ≢ 7 →
        IfOk (request (map string_bytes words.items)) (λ asked. asked.mode ≡ Revert →
        IfSome (told_files (L.content library.old)) (λ files. GivesEarlier asked files result (S.held shelf.old) (S.held shelf.new)))) }

    // Each status has its cause.
    ensures known { IsTrue (is_status result.status) }
    ensures message { IfSome (fixed_text result.status) (λ text. result.message ≡ text) }
    ensures usage { IfOk words (λ words. (result.status ≡ 2) ↔ IsErr (request (map string_bytes words.items))) }
    ensures usage_text { IfOk words (λ words. IfErr (request (map string_bytes words.items)) (λ fault. result.message ≡ message_of (Refusal.Words fault))) }
    ensures too_long { result.status ≡ 10 → IsPastLimit result.message (L.taken library.new) }
    ensures longer_schema { IfOk words (λ words. IfOk (request (map string_bytes words.items)) (λ request. AskedAlone request.schema (L.asked library.old) (L.asked library.new) →
        L.taken library.new ≡ schema_limit + 1 → result.status ≡ 10)) }
    ensures longer_dictionary { IfOk words (λ words. IfOk (request (map string_bytes words.items)) (λ request. reads_schema request.mode ≡ true → reads_on request.mode ≡ false →
        result.status ≢ 7 → L.taken library.new ≡ dictionary_limit + 1 → result.status ≡ 10)) }
    ensures read_within { IfOk words (λ words. IfOk (request (map string_bytes words.items)) (λ asked. reads_schema asked.mode ≡ true →
        (result.status ≡ 0) ⊎ (result.status ≡ 9) → L.taken library.new ≤ input_limit)) }
    ensures schema_read { result.status ≡ 3 → L.taken library.new ≤ schema_limit }
    ensures read_failed { result.status ≡ 5 → FailedAtLast (L.counts library.old) (L.counts library.new) }
    ensures read_unfailed { result.status ≢ 5 → Unfailed (L.counts library.old) (L.counts library.new) }
    ensures stopped { result.status ≡ 5 → L.is_started library.new ≡ false }
    ensures write_failed { result.status ≡ 6 → FailedAtLast (S.counts shelf.old) (S.counts shelf.new) }
    ensures write_unfailed { result.status ≢ 6 → Unfailed (S.counts shelf.old) (S.counts shelf.new) }

    // After a failed write a prefix of the due files stands, and the verdict is these due files.
    ensures prefix { IfOk words (λ words. result.status ≡ 6 → WhereTold (map string_bytes words.items) (L.content library.old)
        (λ verdict. IsOkAnd verdict (λ due. HoldsPrefixOf due (S.held shelf.old) (S.held shelf.new)))) }

    // Any status but 0 and 6 leaves the shelf as it was.
    ensures unwritten { result.status ≢ 0 → result.status ≢ 6 → shelf.new ≡ shelf.old }
    ensures none_begun { result.status ≢ 6 → S.is_begun shelf.new ≡ false }

    // The library stays as it was if the words give no request, or ask for a sample, which has a schema of its own.
    ensures unread { IfOk words (λ words. reads_for (request (map string_bytes words.items)) ≡ false → library.new ≡ library.old) }

    // Only names of the reading list are started, in its order. At status 0 the last file is read to its end.
    ensures asked { IfOk words (λ words. AsksInTurn (request (map string_bytes words.items)) (told_files (L.content library.old)) (L.asked library.old) (L.asked library.new)) }
    ensures read_out { IfOk words (λ words. IfOk (request (map string_bytes words.items)) (λ asked. reads_schema asked.mode ≡ true → result.status ≡ 0 →
        option_map left (L.content library.new) ≡ option_map (λ (c : Content). []) (L.content library.old))) }
    ensures files { told_files (L.content library.new) ≡ told_files (L.content library.old) }

    // Only mode play touches the keeper, and only if the request isn't refused.
    ensures unplayed { IfOk words (λ words. plays_for (request (map string_bytes words.items)) ≡ false → keeper.new ≡ keeper.old) }
    ensures keeper_kept { result.status ≢ 0 → result.status ≢ 6 → result.status ≢ 7 → result.status ≢ 12 → keeper.new ≡ keeper.old }

    // Once the files are due, the keeper is finished: it has exactly the rows that the tables hold at the request's unit.
    ensures played { (result.status ≡ 0) ⊎ (result.status ≡ 6) → IfOk words (λ words. IfOk (request (map string_bytes words.items)) (λ asked. is_play asked.mode ≡ true →
        IfSome (told_files (L.content library.old)) (λ files. IfOk (plan_in files asked.schema) (λ plan.
        K.store keeper.new ≡ played_store plan asked.to asked.store (K.store keeper.old))))) }
    ensures named { (result.status ≡ 0) ⊎ (result.status ≡ 6) → IfOk words (λ words. IfOk (request (map string_bytes words.items)) (λ asked. is_play asked.mode ≡ true →
        (K.store keeper.new).name ≡ option_map (λ (last : List ℕ). asked.store) (K.store keeper.old).name)) }

    // If a call of the keeper failed, or memory ran out, the keeper stays open after some statements, or is as it was.
    ensures broken_off { (K.store keeper.new).is_open ≡ true → IfOk words (λ words. IfOk (request (map string_bytes words.items)) (λ asked.
        IfSome (told_files (L.content library.old)) (λ files. IfOk (plan_in files asked.schema) (λ plan.
        IsBrokenOff plan asked.to asked.store (K.store keeper.old) (K.store keeper.new))))) }
    ensures left_open { (K.store keeper.new).is_open ≡ true → (result.status ≡ 7) ⊎ (result.status ≡ 12) }
    ensures not_opened { (result.status ≡ 7) ⊎ (result.status ≡ 12) → (K.store keeper.new).is_open ≡ false → K.store keeper.new ≡ K.store keeper.old }
    ensures keeper_failed { result.status ≡ 12 → FailedAtLast (K.counts keeper.old) (K.counts keeper.new) }
    ensures keeper_unfailed { result.status ≢ 12 → Unfailed (K.counts keeper.old) (K.counts keeper.new) }
    ensures keeper_due { IfOk words (λ words. result.status ≡ 12 → WhereTold (map string_bytes words.items) (L.content library.old) IsOk) }
{
    match words {
        Ok(words) => pdgf(
            rt,
            alloc,
            words.as_slice(),
            library,
            shelf,
            &OpenGate,
            keeper,
        ),
        Err(error) if error.kind() == ErrorKind::OutOfMemory => {
            refused(Refusal::Words(UsageFault::Memory))
        }
        Err(_) => refused(Refusal::Words(UsageFault::Words)),
    }
}
