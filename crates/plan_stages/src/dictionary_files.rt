//! Dictionaries, read from files one after the other.

ghost use Rattle.std.specs.Prelude.{◌≡◌, ◌≤◌, ◌⊎◌, ◌+◌, ◌++◌, [], ◌∷◌, Err, IfErr, IfOk, IfSome, Ok, OnOk, false, length};
ghost use Rattle.std.specs.Option.{option_map};
ghost use Rattle.pd_outside.specs.Library.{AskedAtMost, ask};
ghost use Rattle.plan_stages.specs.DictionaryFiles.{dictionaries_status, names_of, with_dictionaries, with_dictionary};
ghost use Rattle.plan_stages.specs.Limits.{dictionary_limit};
ghost use Rattle.plan_stages.specs.PlanNames.{up_to_fault, AskedNone, AsksNames};
ghost use Rattle.plan_stages.specs.Stages.{ended, told_files, Decides, IsReadOut, LibraryAfter};
ghost use Rattle.refusals.specs.Statuses.{cause_status, is_free};

use dictionaries::read_dictionary;
use pd_outside::{Library, read_whole};
use refusals::{DictionaryCause, DictionaryFault};
use schema_facts::Dictionaries;
use schema_model::Texts;
use std::alloc::Global;

/// The most bytes of a dictionary.
const DICTIONARY_LIMIT: u64 = 16_777_216;

/// Reads the dictionaries of these names, one after the other, up to the first fault. Their numbers go on from those of the dictionaries
/// that are known already.
///
/// A dictionary has at most 16,777,216 bytes. Any cause can also tell that memory is wanting. If the library doesn't tell its files, the
/// clauses say only what can be said.
pub fn read_dictionaries<L: Library>(
    alloc: Global,
    library: &mut L,
    known: &Dictionaries,
    names: &Texts,
) -> Result<Dictionaries, DictionaryFault>
    requires taken { L.taken library.old ≤ dictionary_limit }
    requires read_out { IsReadOut (L.content library.old) }
    ensures read { IfSome (told_files (L.content library.old)) (λ files.
        Decides dictionaries_status (λ found. known.now ++ found) result (with_dictionaries files known.now names.now)) }
    ensures named { IfOk result (λ found. names_of found ≡ names.now) }
    ensures after { LibraryAfter (ended dictionaries_status result) dictionary_limit (told_files (L.content library.old)) (L.content library.new)
        (L.taken library.new) (L.is_started library.new) (L.counts library.old) (L.counts library.new) }
    ensures longer { L.taken library.new ≡ dictionary_limit + 1 → ended dictionaries_status result ≡ 10 }
    ensures asked { AsksNames names.now (told_files (L.content library.old)) (L.asked library.old) (L.asked library.new) }
    ensures asked_all { OnOk result (L.asked library.new ≡ option_map (λ all. all ++ names.now) (L.asked library.old)) }
    ensures readable { OnOk result (IfSome (told_files (L.content library.old)) (λ files. up_to_fault files names.now ≡ names.now)) }
    ensures unasked { AskedNone (L.asked library.old) (L.asked library.new) → L.taken library.new ≤ L.taken library.old }
{
    let before = known.len();
    if usize::MAX - before < names.len() {
        return Err(DictionaryFault {
            number: 0,
            cause: DictionaryCause::Memory, // no memory holds so many
        });
    }
    let mut dictionaries = Dictionaries::new(alloc);
    for place in 0..names.len() {
        let name = names.get(place).as_str();
        match add_dictionary(alloc, library, name, &mut dictionaries) {
            Ok(()) => {}
            Err(cause) => {
                return Err(DictionaryFault {
                    number: (before + place) as u64 + 1,
                    cause,
                });
            }
        }
    }
    Ok(dictionaries)
}

/// Reads the dictionary of a name and appends it to the others.
fn add_dictionary<L: Library>(
    alloc: Global,
    library: &mut L,
    name: &str,
    dictionaries: &mut Dictionaries,
) -> Result<(), DictionaryCause>
    ensures read { IfSome (told_files (L.content library.old)) (λ files. OnOk result (with_dictionary files dictionaries.old name.now ≡ Ok dictionaries.new)) }
    ensures refused { IfSome (told_files (L.content library.old)) (λ files.
        IfErr result (λ cause. is_free (cause_status cause) ≡ false → with_dictionary files dictionaries.old name.now ≡ Err cause)) }
    ensures count { OnOk result (length dictionaries.new ≡ length dictionaries.old + 1) }
    ensures named { OnOk result (names_of dictionaries.new ≡ names_of dictionaries.old ++ name.now ∷ []) }
    ensures after { LibraryAfter (ended cause_status result) dictionary_limit (told_files (L.content library.old)) (L.content library.new)
        (L.taken library.new) (L.is_started library.new) (L.counts library.old) (L.counts library.new) }
    ensures longer { L.taken library.new ≡ dictionary_limit + 1 → ended cause_status result ≡ 10 }
    ensures asked { OnOk result (L.asked library.new ≡ ask name.now (L.asked library.old)) }
    ensures asked_at_most { AskedAtMost name.now (L.asked library.old) (L.asked library.new) }
    ensures unasked { (L.asked library.new ≡ ask name.now (L.asked library.old)) ⊎ (L.taken library.new ≡ 0) }
{
    let bytes = read_whole(alloc, library, name, DICTIONARY_LIMIT)?;
    let words = read_dictionary(alloc, &bytes)?;
    dictionaries.push(name, words)?;
    Ok(())
}
