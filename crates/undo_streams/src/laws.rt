//! The laws of undo texts. Each law is the contract of a function that does nothing.

ghost use Rattle.std.specs.Prelude.{◌≡◌, ◌≢◌, ℕ, List};
ghost use Rattle.row_text.specs.Fields.{IsDelimiter};
ghost use Rattle.stream_apply.specs.KeyedLines.{KeyedLine};
ghost use Rattle.undo_streams.specs.InTurn.{IsRevertFaultAt, IsRevertedText};
ghost use Rattle.undo_streams.specs.Reverting.{IsUndoFault, IsUndoneBy};
ghost use Rattle.undo_streams.specs.declared.fault.RevertFault.{RevertFault};
ghost use Rattle.undo_streams.specs.declared.fault.RevertFault.TheVariants.{Memory};

/// An undo text that applies makes one table and has no fault. One that doesn't apply has one first fault.
pub fn undo_text_has_one_outcome()
    ensures made { (delimiter : ℕ) (before : List KeyedLine) (bytes : List ℕ) (after other : List KeyedLine) → IsDelimiter delimiter →
        IsUndoneBy delimiter before bytes after → IsUndoneBy delimiter before bytes other → after ≡ other }
    ensures taken { (delimiter : ℕ) (before : List KeyedLine) (bytes : List ℕ) (after : List KeyedLine) (fault : RevertFault) → IsDelimiter delimiter →
        IsUndoneBy delimiter before bytes after → fault ≢ Memory → ¬ IsUndoFault delimiter before bytes fault }
    ensures first { (delimiter : ℕ) (before : List KeyedLine) (bytes : List ℕ) (fault other : RevertFault) → IsDelimiter delimiter →
        IsUndoFault delimiter before bytes fault → IsUndoFault delimiter before bytes other → fault ≢ Memory → other ≢ Memory → fault ≡ other }
{}

/// A table's text and undo texts, applied in turn, either make one text and have no fault, or have one first fault at one place.
pub fn inputs_have_one_outcome()
    ensures made { (delimiter : ℕ) (inputs : List (List ℕ)) (text other : List ℕ) → IsDelimiter delimiter →
        IsRevertedText delimiter inputs text → IsRevertedText delimiter inputs other → text ≡ other }
    ensures none { (delimiter : ℕ) (inputs : List (List ℕ)) (text : List ℕ) (place : ℕ) (fault : RevertFault) → IsDelimiter delimiter →
        IsRevertedText delimiter inputs text → fault ≢ Memory → ¬ IsRevertFaultAt delimiter inputs place fault }
    ensures first { (delimiter : ℕ) (inputs : List (List ℕ)) (place other_place : ℕ) (fault other : RevertFault) → IsDelimiter delimiter →
        IsRevertFaultAt delimiter inputs place fault → IsRevertFaultAt delimiter inputs other_place other → fault ≢ Memory → other ≢ Memory →
        (place ≡ other_place) × (fault ≡ other) }
{}
