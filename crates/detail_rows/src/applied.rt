//! The text of a detail table, and the streams of a unit applied to it.

ghost use Rattle.std.specs.Prelude.{◌≡◌, [], ◌∷◌, IfErr, IfOk};
ghost use Rattle.row_text.specs.Fields.{IsDelimiter};
ghost use Rattle.stream_apply.specs.InTurn.{IsAppliedText};
ghost use Rattle.stream_apply.specs.declared.key_fields.KeyFields.TheVariants.{Two};
ghost use Rattle.detail_rows.specs.Applying.{IsFirstFault, detail_fault};

use std::alloc::Global;
use stream_apply::{ApplyFault, KeyFields, TurnFault, apply_slices};

/// Why streams aren't applied to a detail table: what is wrong with the first line at fault. Lines count from 1. Inputs count from 0: the
/// text, and then the deletions, the updates and the insertions.
#[derive(Clone, Copy, Debug, PartialEq, Eq)]
pub enum DetailApplyFault {
    /// The line has no line feed or is no line body, it has fewer than two fields, or one of the first two is null. A line to be deleted is
    /// also bad if it has more than two fields.
    BadLine { input: u32, line: u64 },
    /// An earlier line of the same input has the same first two fields.
    DoubleKey { input: u32, line: u64 },
    /// The table holds no line with these first two fields.
    NoSuchKey { input: u32, line: u64 },
    /// The table holds a line with these first two fields.
    KeyExists { input: u32, line: u64 },
    /// Memory ran out.
    Memory,
}

/// Applies a unit's deletions, updates and insertions to the text of a detail table, and returns the later text. The delimiter between
/// two fields is a tab (9) or a bar (124). Lines are known by their first two fields. Refuses at the first line at fault of the first
/// input that has one. Refuses too if memory is wanting.
pub fn apply_details(
    alloc: Global,
    text: &[u8],
    deletes: &[u8],
    updates: &[u8],
    inserts: &[u8],
    delimiter: u8,
) -> Result<Vec<u8>, DetailApplyFault>
    requires { IsDelimiter delimiter }
    ensures applied { IfOk result (λ made. IsAppliedText Two delimiter (text.now ∷ deletes.now ∷ updates.now ∷ inserts.now ∷ []) made.items) }
    ensures fault { IfErr result (IsFirstFault delimiter (text.now ∷ deletes.now ∷ updates.now ∷ inserts.now ∷ [])) }
{
    let inputs = [text, deletes, updates, inserts];
    match apply_slices(alloc, &inputs, KeyFields::Two, delimiter) {
        Ok(made) => Ok(made),
        Err(TurnFault { place, fault }) => Err(fault_of(place as u32, fault)),
    }
}

/// Returns the fault of an input, which counts from 0, as one of the detail table.
fn fault_of(input: u32, fault: ApplyFault) -> DetailApplyFault
    ensures { result ≡ detail_fault input fault }
{
    match fault {
        ApplyFault::BadLine { line } => DetailApplyFault::BadLine { input, line },
        ApplyFault::DoubleKey { line } => DetailApplyFault::DoubleKey { input, line },
        ApplyFault::NoSuchKey { line } => DetailApplyFault::NoSuchKey { input, line },
        ApplyFault::KeyExists { line } => DetailApplyFault::KeyExists { input, line },
        ApplyFault::Memory => DetailApplyFault::Memory,
    }
}
