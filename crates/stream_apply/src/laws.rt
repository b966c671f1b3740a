//! The laws of streams. Each law is the contract of a function that does nothing.

ghost use Rattle.std.specs.Prelude.{◌≡◌, ◌≢◌, ℕ, ◌↔◌, List, [], ◌∷◌};
ghost use Rattle.row_text.specs.Fields.{IsDelimiter};
ghost use Rattle.stream_apply.specs.InTurn.{HasFaultAt, Input, IsMadeInTurn, inputs_from};
ghost use Rattle.stream_apply.specs.KeyedLines.{KeyedLine};
ghost use Rattle.stream_apply.specs.Streams.{IsApplied, IsBehind, IsFaultOf, IsLoaded, IsStream, Table};
ghost use Rattle.stream_apply.specs.declared.fault.ApplyFault.{ApplyFault};
ghost use Rattle.stream_apply.specs.declared.fault.ApplyFault.TheVariants.{Memory};
ghost use Rattle.stream_apply.specs.declared.key_fields.KeyFields.{KeyFields};
ghost use Rattle.stream_apply.specs.declared.kind.InputKind.{InputKind};
ghost use Rattle.stream_apply.specs.declared.kind.InputKind.TheVariants.{Deletes, Inserts, Snapshot, Updates};

/// If a table is loaded and the streams of one unit are applied to it in turn, it holds what they make of its text.
pub fn calls_in_turn_apply_a_unit()
    ensures { (keys : KeyFields) (delimiter : ℕ) (text deletes updates inserts : List ℕ) (loaded deleted updated inserted : Table) →
        IsLoaded text keys delimiter loaded → IsApplied Deletes deletes loaded deleted →
        IsApplied Updates updates deleted updated → IsApplied Inserts inserts updated inserted →
        IsBehind keys delimiter text deletes updates inserts inserted.lines }
{}

/// A stream has one list of lines.
pub fn stream_is_read_in_one_way()
    ensures { (keys : KeyFields) (delimiter : ℕ) (kind : InputKind) (table : List KeyedLine) (bytes : List ℕ) (lines others : List KeyedLine) → IsDelimiter delimiter →
        IsStream keys delimiter kind table bytes lines → IsStream keys delimiter kind table bytes others → lines ≡ others }
{}

/// A stream that is read has no fault. One that isn't read has one first fault.
pub fn stream_has_one_outcome()
    ensures read { (keys : KeyFields) (delimiter : ℕ) (kind : InputKind) (table : List KeyedLine) (bytes : List ℕ) (lines : List KeyedLine) (fault : ApplyFault) → IsDelimiter delimiter →
        IsStream keys delimiter kind table bytes lines → fault ≢ Memory → ¬ IsFaultOf keys delimiter kind table bytes fault }
    ensures first { (keys : KeyFields) (delimiter : ℕ) (kind : InputKind) (table : List KeyedLine) (bytes : List ℕ) (fault other : ApplyFault) → IsDelimiter delimiter →
        IsFaultOf keys delimiter kind table bytes fault → IsFaultOf keys delimiter kind table bytes other → fault ≢ Memory → other ≢ Memory → fault ≡ other }
{}

/// Inputs that are applied in turn either make one table and have no fault, or have one first fault at one place.
pub fn inputs_have_one_outcome()
    ensures made { (keys : KeyFields) (delimiter : ℕ) (inputs : List Input) (before after other : List KeyedLine) → IsDelimiter delimiter →
        IsMadeInTurn keys delimiter inputs before after → IsMadeInTurn keys delimiter inputs before other → after ≡ other }
    ensures none { (keys : KeyFields) (delimiter : ℕ) (inputs : List Input) (before after : List KeyedLine) (place : ℕ) (fault : ApplyFault) →
        IsDelimiter delimiter → IsMadeInTurn keys delimiter inputs before after → fault ≢ Memory →
        ¬ HasFaultAt keys delimiter inputs before place fault }
    ensures first { (keys : KeyFields) (delimiter : ℕ) (inputs : List Input) (before : List KeyedLine) (place other_place : ℕ) (fault other : ApplyFault) →
        IsDelimiter delimiter → HasFaultAt keys delimiter inputs before place fault → HasFaultAt keys delimiter inputs before other_place other →
        fault ≢ Memory → other ≢ Memory → (place ≡ other_place) × (fault ≡ other) }
{}

/// The inputs of one unit, applied in turn, make the lines that `IsBehind` defines.
pub fn one_unit_in_turn()
    ensures { (keys : KeyFields) (delimiter : ℕ) (text deletes updates inserts : List ℕ) (lines : List KeyedLine) →
        IsMadeInTurn keys delimiter (inputs_from Snapshot (text ∷ deletes ∷ updates ∷ inserts ∷ [])) [] lines
        ↔ IsBehind keys delimiter text deletes updates inserts lines }
{}
