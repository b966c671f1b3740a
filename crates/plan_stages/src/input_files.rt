//! Files that are read one after the other.

ghost use Rattle.std.specs.Prelude.{◌≡◌, ◌<◌, ◌≤◌, ◌⊎◌, ◌+◌, ◌^◌, IfErr, IfOk, IfSome, IsErrOf, IsOk, OnOk, length};
ghost use Rattle.pd_outside.specs.Files.{bytes_of};
ghost use Rattle.pd_outside.specs.Library.{AskedAtMost, ask};
ghost use Rattle.plan_stages.specs.Inputs.{input_status, inputs_in, AskedInTurn, AskedToFault, InputRead, InputUnread, InputsRead};
ghost use Rattle.plan_stages.specs.Stages.{told_files, Decides, LibraryAfter};
ghost use Rattle.refusals.specs.Statuses.{reading_status};

use crate::{Inputs, UnreadInput};
use pd_outside::{Library, ReadFault, read_whole};
use schema_model::Texts;
use std::alloc::Global;

/// Reads the files of these names, one after the other, each to its end, up to the first fault. Returns their bytes. An
/// absent file is empty, or isn't read.
///
/// All files together have at most `limit` bytes. `TooLong` comes at the first file with which they have more. By then one
/// byte more was taken of it than the files before it leave. `Failed` comes only if one call of the library failed, and
/// nothing is called after it. `Memory` tells neither. If the library doesn't tell its files, the clauses say only
/// what can be said. For no names it asks nothing and returns no bytes.
pub fn read_in_turn<L: Library>(
    alloc: Global,
    library: &mut L,
    names: &Texts,
    limit: u64,
) -> Result<Inputs, UnreadInput>
    requires { limit < 2 ^ 32 }

    ensures inputs { IfSome (told_files (L.content library.old)) (λ files. Decides input_status (λ inputs. inputs) result (inputs_in files names.now limit)) }
    ensures read { IfOk result (λ inputs. InputsRead inputs names.now limit (L.content library.old) (L.content library.new)
        (L.taken library.old) (L.taken library.new) (L.counts library.old) (L.counts library.new)) }
    ensures unread { IfErr result (λ fault. InputUnread fault names.now limit (L.content library.old) (L.content library.new)
        (L.taken library.new) (L.is_started library.new) (L.counts library.old) (L.counts library.new)) }
    ensures asked { OnOk result (AskedInTurn names.now (L.asked library.old) (L.asked library.new)) }
    ensures asked_to_fault { IfErr result (λ fault. AskedToFault fault names.now (L.taken library.new) (L.asked library.old) (L.asked library.new)) }
{
    let mut inputs = Inputs::new(alloc);
    let mut left = limit;
    for place in 0..names.len() {
        let name = names.get(place).as_str();
        match add_input(alloc, library, name, left, &mut inputs) {
            Ok(length) => left -= length,
            Err(cause) => {
                return Err(UnreadInput {
                    number: place,
                    cause,
                });
            }
        }
    }
    Ok(inputs)
}

/// Reads the file of a name, appends its bytes to the others, and returns how many bytes they are.
fn add_input<L: Library>(
    alloc: Global,
    library: &mut L,
    name: &str,
    limit: u64,
    inputs: &mut Inputs,
) -> Result<u64, ReadFault>
    requires { limit < 2 ^ 32 }

    ensures read { OnOk result (InputRead inputs.old inputs.new name.now limit (L.content library.old) (L.content library.new)
        (L.taken library.new) (L.counts library.old) (L.counts library.new)) }
    ensures length { IfOk result (λ length. length ≡ L.taken library.new) }
    ensures at_most { L.taken library.new ≤ limit + 1 }
    ensures only_too_long { L.taken library.new ≡ limit + 1 → IsErrOf result ReadFault.TooLong }
    ensures longer { IsErrOf result ReadFault.TooLong → IfSome (L.content library.old) (λ c. limit < length (bytes_of c.files name.now)) }
    ensures unread { IfErr result (λ cause. LibraryAfter (reading_status cause) limit (told_files (L.content library.old)) (L.content library.new)
        (L.taken library.new) (L.is_started library.new) (L.counts library.old) (L.counts library.new)) }
    ensures asked { IsOk result ⊎ IsErrOf result ReadFault.TooLong → L.asked library.new ≡ ask name.now (L.asked library.old) }
    ensures asked_at_most { AskedAtMost name.now (L.asked library.old) (L.asked library.new) }
    ensures unasked { (L.asked library.new ≡ ask name.now (L.asked library.old)) ⊎ (L.taken library.new ≡ 0) }
{
    let bytes = read_whole(alloc, library, name, limit)?;
    let length = bytes.len() as u64;
    inputs.push(bytes)?;
    Ok(length)
}
