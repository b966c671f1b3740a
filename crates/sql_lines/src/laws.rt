//! The laws of statements, for accepted schemas. Each law is the contract of a function that does nothing.

ghost use Rattle.std.specs.Prelude.{◌≡◌, ◌<◌, ◌≤◌, ℕ, ◌-◌, ◌*◌, Bool, None, List, Option, codes, false, flat_map, length, take};
ghost use Rattle.std.specs.List.{range_with_len};
ghost use Rattle.range_workers.specs.Marks.{texts};
ghost use Rattle.schema_facts.specs.Dictionaries.{Project};
ghost use Rattle.schema_facts.specs.Layout.{layout_of};
ghost use Rattle.schema_plan.specs.Limits.{IsInLimits};
ghost use Rattle.life_intervals.specs.Generator.{generator_of, last_unit};
ghost use Rattle.life_intervals.specs.Rows.{Row};
ghost use Rattle.row_keeper.specs.Kept.{NoneDangles, no_rows};
ghost use Rattle.row_lines.specs.Lines.{field};
ghost use Rattle.keeper_play.specs.Statements.{rows_of_unit};
ghost use Rattle.update_box.specs.Packages.{IsJobOf};
ghost use Rattle.update_box.specs.Parts.{Part};
ghost use Rattle.update_box.specs.declared.parts.Job.{Job};
ghost use Rattle.sql_lines.specs.Effects.{after_effects, effects_of, snapshot_statements, statements_of, unit_statements};
ghost use Rattle.sql_lines.specs.Literals.{literal};
ghost use Rattle.sql_lines.specs.Packages.{count_of, text_numbered};
ghost use Rattle.sql_lines.specs.Script.{packages_of_part, part_statements, statements_text};
ghost use Rattle.sql_lines.specs.Statements.{literal_at};

/// A literal gives back its field. Between quotes no two fields have one literal, and neither have two fields of one column.
pub fn literals_tell_their_fields()
    ensures quoted { (field other : Option (List ℕ)) → literal false field ≡ literal false other → field ≡ other }
    ensures column { (plan : Project) (place column unit other_unit : ℕ) (row other : Row) →
        literal_at plan unit place row column ≡ literal_at plan other_unit place other column →
        field (generator_of plan) unit place row column ≡ field (generator_of plan) other_unit place other column }
{}

/// The packages of a node's share of a part, one after the other, are the share's statements.
pub fn packages_are_the_share()
    ensures { (plan : Project) → IsInLimits plan → (job : Job) → IsJobOf plan job →
        (part : Part) → part.place < length plan.schema.tables →
        texts (text_numbered (packages_of_part plan job part)) 0 (count_of (packages_of_part plan job part)) ≡ part_statements plan job part }
{}

/// The text of a script is that of its parts, one after the other.
pub fn scripts_are_their_parts()
    ensures { (plan : Project) (unit : ℕ) (parts : List Part) →
        flat_map (λ statement. statement.text) (statements_of plan unit parts)
        ≡ flat_map (λ part. statements_text plan unit part.place part.content) parts }
{}

/// After each statement of the script of a snapshot, run over empty tables, each reference of each row leads to a row that is there then. After
/// all of them the rows are those that the tables hold at the unit, with their fields and references.
pub fn snapshot_scripts_give_the_rows()
    ensures none_dangles { (plan : Project) → IsInLimits plan → (unit count : ℕ) → unit ≤ last_unit plan →
        NoneDangles (after_effects (take count (effects_of (snapshot_statements plan unit))) no_rows) }
    ensures rows { (plan : Project) → IsInLimits plan → (unit : ℕ) → unit ≤ last_unit plan →
        after_effects (effects_of (snapshot_statements plan unit)) no_rows ≡ rows_of_unit (generator_of plan) unit }
{}

/// The same holds of the script of a unit, run over the rows of the unit before.
pub fn unit_scripts_give_the_rows()
    ensures none_dangles { (plan : Project) → IsInLimits plan → (unit count : ℕ) → 1 ≤ unit → unit ≤ last_unit plan →
        NoneDangles (after_effects (take count (effects_of (unit_statements plan unit))) (rows_of_unit (generator_of plan) (unit - 1))) }
    ensures rows { (plan : Project) → IsInLimits plan → (unit : ℕ) → 1 ≤ unit → unit ≤ last_unit plan →
        after_effects (effects_of (unit_statements plan unit)) (rows_of_unit (generator_of plan) (unit - 1)) ≡ rows_of_unit (generator_of plan) unit }
{}
