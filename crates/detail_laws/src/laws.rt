//! The laws of detail tables' texts, for accepted schemas and declarations. Each law is the contract of a function that does nothing.

ghost use Rattle.std.specs.Prelude.{ℕ, ◌+◌, ◌-◌, ◌≤◌, List, [], ◌∷◌, flat_map};
ghost use Rattle.std.specs.List.{range_with_len};
ghost use Rattle.schema_facts.specs.Dictionaries.{Project};
ghost use Rattle.schema_facts.specs.Layout.{layout_of};
ghost use Rattle.schema_plan.specs.Limits.{IsInLimits};
ghost use Rattle.life_intervals.specs.Generator.{last_unit};
ghost use Rattle.stream_apply.specs.InTurn.{IsAppliedText};
ghost use Rattle.stream_apply.specs.KeyedLines.{KeyedLine};
ghost use Rattle.stream_apply.specs.declared.key_fields.KeyFields.TheVariants.{Two};
ghost use Rattle.detail_plan.specs.Kept.{Kept, KeepsRules};
ghost use Rattle.detail_rows.specs.Applying.{detail_streams};
ghost use Rattle.detail_laws.specs.Naming.{AreDetailLines};
ghost use Rattle.detail_lines.specs.Lines.{detail_text};

/// Applying the streams of a unit to a detail table's text at the unit before gives its text at the unit. Applying the streams of several
/// units in turn gives its text at the last of them. No line is at fault.
pub fn streams_give_the_next_details()
    ensures text { (plan : Project) → IsInLimits plan → (kept : Kept) → KeepsRules plan kept → (t : ℕ) → t ≤ last_unit plan →
        IsAppliedText Two (layout_of plan).delimiter (detail_text plan kept t ∷ []) (detail_text plan kept t) }
    ensures unit { (plan : Project) → IsInLimits plan → (kept : Kept) → KeepsRules plan kept → (t : ℕ) → 1 ≤ t → t ≤ last_unit plan →
        IsAppliedText Two (layout_of plan).delimiter (detail_text plan kept (t - 1) ∷ detail_streams plan kept t) (detail_text plan kept t) }
    ensures units { (plan : Project) → IsInLimits plan → (kept : Kept) → KeepsRules plan kept →
        (from count : ℕ) → from + count ≤ last_unit plan →
        IsAppliedText Two (layout_of plan).delimiter
        (detail_text plan kept from ∷ flat_map (detail_streams plan kept) (range_with_len (from + 1) count))
        (detail_text plan kept (from + count)) }
{}

/// No two lines of a detail table's text have the same first two fields. The first field of each is the key of exactly one line of the
/// parent's text at the same unit.
pub fn lines_name_one_row_each()
    ensures { (plan : Project) → IsInLimits plan → (kept : Kept) → KeepsRules plan kept → (t : ℕ) → t ≤ last_unit plan →
        (lines : List KeyedLine) × AreDetailLines plan kept t lines }
{}
