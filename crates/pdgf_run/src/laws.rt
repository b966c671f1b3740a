//! The laws of what words and files come to. Each is the contract of a function that does nothing.

ghost use Rattle.std.specs.Prelude.{◌≡◌, ◌+◌, ◌<◌, ◌≤◌, ◌∷◌, ℕ, List, Result, length};
ghost use Rattle.pd_outside.specs.Files.{File};
ghost use Rattle.refusals.specs.declared.refusal.Refusal.{Refusal};
ghost use Rattle.schema_facts.specs.Dictionaries.{Project};
ghost use Rattle.schema_facts.specs.Layout.{layout_of};
ghost use Rattle.schema_plan.specs.Limits.{IsInLimits};
ghost use Rattle.life_intervals.specs.Generator.{generator_of, last_unit};
ghost use Rattle.row_lines.specs.Lines.{table_text};
ghost use Rattle.stream_apply.specs.InTurn.{IsAppliedText};
ghost use Rattle.stream_apply.specs.declared.key_fields.KeyFields.TheVariants.{One};
ghost use Rattle.undo_streams.specs.InTurn.{IsRevertedText};
ghost use Rattle.replay_files.specs.UndoLaws.{undo_texts};
ghost use Rattle.pdgf_run.specs.Verdict.{IsVerdict};
ghost use Rattle.replay_files.specs.modes.Apply.{table_inputs};

/// Words and files come to only one verdict.
pub fn words_and_files_have_one_verdict()
    ensures { (words : List (List ℕ)) (files : List File) (verdict other : Result (List File) Refusal) →
        IsVerdict words files verdict → IsVerdict words files other → verdict ≡ other }
{}

/// The undo text of a unit takes a table's text at that unit back to its text at the unit before. The undo texts of the units
/// before, each in its turn, take it back to any earlier unit.
pub fn undo_texts_give_the_earlier_text()
    ensures { (plan : Project) → IsInLimits plan → (place : ℕ) → place < length plan.schema.tables →
        (to count : ℕ) → to + count ≤ last_unit plan →
        IsRevertedText (layout_of plan).delimiter
        (table_text (generator_of plan) (to + count) place ∷ undo_texts plan place to count)
        (table_text (generator_of plan) to place) }
{}

/// What the streams of some units make of a table's text, the undo texts of these units take back to the text that was.
pub fn reverting_after_applying_gives_the_text_that_was()
    ensures { (plan : Project) → IsInLimits plan → (place : ℕ) → place < length plan.schema.tables →
        (from count : ℕ) → from + count ≤ last_unit plan → (made : List ℕ) →
        IsAppliedText One (layout_of plan).delimiter (table_inputs plan from count place) made →
        IsRevertedText (layout_of plan).delimiter (made ∷ undo_texts plan place from count) (table_text (generator_of plan) from place) }
{}
