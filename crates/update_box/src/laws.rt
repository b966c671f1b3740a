//! The laws of what a unit changes and of what the tables' texts hold, for accepted schemas. Each law is the contract of a function that does
//! nothing.
//!
//! A table is named by its place in the schema, and a row by its ordinal. Both count from 0.

ghost use Rattle.std.specs.Prelude.{◌≡◌, ℕ, ℤ, ◌+◌, ◌-◌, ◌*◌, ◌<◌, ◌≤◌, ◌==◌, ◌&&◌, [], ◌∷◌, All, IfSome, IsSome, MatchOption, Some, codes, decimal, false, filter, flat_map, if◌then◌else◌, is_some, length, not, slice_index_or, true};
ghost use Rattle.std.specs.List.{range_with_len};
ghost use Rattle.cohort_sizes.specs.Births.{first_ordinal};
ghost use Rattle.schema_facts.specs.Dictionaries.{Project};
ghost use Rattle.schema_facts.specs.Layout.{layout_of};
ghost use Rattle.schema_plan.specs.Limits.{IsInLimits};
ghost use Rattle.schema_facts.specs.References.{Reference, cascades_of, reference_at, references_of};
ghost use Rattle.schema_facts.specs.TableFacts.{reach};
ghost use Rattle.life_intervals.specs.Generator.{generator_of, last_unit, rows_in_all, table_of};
ghost use Rattle.life_intervals.specs.Intervals.{change_unit, held_parent, is_live, parent_of};
ghost use Rattle.life_intervals.specs.Keys.{key_of};
ghost use Rattle.life_intervals.specs.Rows.{Row};
ghost use Rattle.life_intervals.specs.Simulation.{holds_row, rows_at, simulation};
ghost use Rattle.life_intervals.specs.Streams.{deleted, inserted, updated};
ghost use Rattle.row_lines.specs.Lines.{held_row, key_line_of, line, table_text};
ghost use Rattle.row_lines.specs.RowViews.{parent_of_row};
ghost use Rattle.stream_apply.specs.InTurn.{IsAppliedText};
ghost use Rattle.stream_apply.specs.declared.key_fields.KeyFields.TheVariants.{One};
ghost use Rattle.update_box.specs.Packages.{IsJobOf, package_text, packages_in, packages_of, room_of, share_of, share_text};
ghost use Rattle.update_box.specs.Parts.{Part, content_text, snapshot_contents, unit_contents};
ghost use Rattle.update_box.specs.declared.parts.Job.{Job};
ghost use Rattle.update_box.specs.TextLaws.{field_of_line, lines_with_key, unit_streams, with_last_unit};
ghost use Rattle.update_box.specs.UnitLists.{ordinals, table_lists};

/// The step to a unit updates the rows that are born before the unit, are alive at it and have it as their change unit.
pub fn updates_are_the_living_whose_change_unit_it_is()
    ensures { (plan : Project) → IsInLimits plan →
        (place : ℕ) → place < length plan.schema.tables → (t : ℕ) → 1 ≤ t → t ≤ last_unit plan →
        (table_lists plan t place).updated
        ≡ filter (λ ordinal. is_live (generator_of plan) place t ordinal && change_unit (generator_of plan) place t ordinal == t)
        (range_with_len 0 (first_ordinal (table_of plan place).births t)) }
{}

/// The step to a unit deletes the rows that the table holds at the unit before and not at the unit, in their order.
pub fn deletions_are_the_rows_that_are_gone()
    ensures { (plan : Project) → IsInLimits plan →
        (place : ℕ) → place < length plan.schema.tables → (t : ℕ) → 1 ≤ t → t ≤ last_unit plan →
        (table_lists plan t place).deleted
        ≡ ordinals (filter (λ (row : Row). not (holds_row (rows_at (generator_of plan) place t) row.ordinal))
        (rows_at (generator_of plan) place (t - 1))) }
{}

/// A row that a table holds at a unit refers only to parents that their tables hold at the unit. It keeps the parents of its cascading
/// references. In the tables' texts, the field of a reference is the key field of exactly one line of the parent's text. It is null if the
/// row has lost the parent.
pub fn references_name_one_line_each()
    ensures held { (plan : Project) → IsInLimits plan →
        (place : ℕ) → place < length plan.schema.tables → (unit ordinal : ℕ) → unit ≤ last_unit plan →
        holds_row (rows_at (generator_of plan) place unit) ordinal ≡ true →
        All (λ reference. IfSome (held_parent (generator_of plan) place unit ordinal reference)
        (λ parent. holds_row (rows_at (generator_of plan) reference.parent unit) parent ≡ true))
        (references_of (table_of plan place)) }
    ensures cascades { (plan : Project) → IsInLimits plan →
        (place : ℕ) → place < length plan.schema.tables → (unit ordinal : ℕ) → unit ≤ last_unit plan →
        holds_row (rows_at (generator_of plan) place unit) ordinal ≡ true →
        All (λ reference. holds_row (rows_at (generator_of plan) reference.parent unit)
        (parent_of (generator_of plan) place unit ordinal reference) ≡ true)
        (cascades_of (table_of plan place)) }
    ensures line { (plan : Project) → IsInLimits plan →
        (place : ℕ) → place < length plan.schema.tables → (unit : ℕ) → unit ≤ last_unit plan →
        (i : ℕ) (d : Row) → i < length (rows_at (generator_of plan) place unit) →
        (column : ℕ) (reference : Reference) → reference_at (table_of plan place) column ≡ Some reference →
        let row = slice_index_or (rows_at (generator_of plan) place unit) i d in
        let text = field_of_line (generator_of plan) unit place column row in
        MatchOption (parent_of_row (table_of plan place) row column) (text ≡ codes "\\N")
        (λ parent. lines_with_key (generator_of plan) unit reference.parent text ≡ 1) }
    ensures kept { (plan : Project) → IsInLimits plan →
        (place : ℕ) → place < length plan.schema.tables → (unit : ℕ) → unit ≤ last_unit plan →
        (i : ℕ) (d : Row) → i < length (rows_at (generator_of plan) place unit) →
        (column : ℕ) (reference : Reference) → reference_at (table_of plan place) column ≡ Some reference → reference.nulls ≡ false →
        IsSome (parent_of_row (table_of plan place) (slice_index_or (rows_at (generator_of plan) place unit) i d) column) }
{}

/// The text at a unit has one line with the key of a row that the report on it tells as live at the unit. It has none with the key of a row
/// that is told as dead or unborn. So the unit at which a row is gone is the first one after its birth whose text hasn't its line.
pub fn the_text_has_the_line_of_a_row_that_is_told_live()
    ensures { (plan : Project) → IsInLimits plan →
        (place : ℕ) → place < length plan.schema.tables → (unit : ℕ) → unit ≤ last_unit plan → (ordinal : ℕ) → ordinal < rows_in_all plan place →
        lines_with_key (generator_of plan) unit place (decimal (key_of (generator_of plan) place (last_unit plan) ordinal))
        ≡ (if is_some (held_row (generator_of plan) place unit ordinal) then 1 else 0) }
{}

/// A unit doesn't depend on later units. If two accepted schemas differ only in their last unit, they have the same states, texts and changes
/// at each unit that both reach.
pub fn a_longer_run_changes_nothing_earlier()
    ensures states { (plan : Project) (last : ℤ) (unit : ℕ) →
        simulation (generator_of (with_last_unit plan last)) unit ≡ simulation (generator_of plan) unit }
    ensures texts { (plan : Project) (last : ℤ) (unit place : ℕ) →
        table_text (generator_of (with_last_unit plan last)) unit place ≡ table_text (generator_of plan) unit place }
    ensures updates { (plan : Project) (last : ℤ) (unit place : ℕ) →
        let other = generator_of (with_last_unit plan last) in
        flat_map (line other unit place) (updated other place unit)
        ≡ flat_map (line (generator_of plan) unit place) (updated (generator_of plan) place unit) }
    ensures insertions { (plan : Project) (last : ℤ) (unit place : ℕ) →
        let other = generator_of (with_last_unit plan last) in
        flat_map (line other unit place) (inserted other place unit)
        ≡ flat_map (line (generator_of plan) unit place) (inserted (generator_of plan) place unit) }
    ensures deletions { (plan : Project) (last : ℤ) → IsInLimits plan →
        (place : ℕ) → place < length plan.schema.tables →
        (unit : ℕ) → unit ≤ last_unit plan → unit ≤ last_unit (with_last_unit plan last) →
        let other = with_last_unit plan last in
        flat_map (λ (row : Row). key_line_of (generator_of other) (last_unit other) place row.ordinal)
        (deleted (generator_of other) place unit)
        ≡ flat_map (λ (row : Row). key_line_of (generator_of plan) (last_unit plan) place row.ordinal)
        (deleted (generator_of plan) place unit) }
{}

/// A table's text is the lines of a table. The streams of the next unit, applied to the text, make the text at that unit. So do the streams
/// of further units, applied in turn. No stream has a fault: the table holds each row that a unit deletes or updates, and no row that it
/// inserts.
pub fn streams_give_the_next_text()
    ensures text { (plan : Project) → IsInLimits plan → (place : ℕ) → place < length plan.schema.tables → (t : ℕ) → t ≤ last_unit plan →
        IsAppliedText One (layout_of plan).delimiter (table_text (generator_of plan) t place ∷ []) (table_text (generator_of plan) t place) }
    ensures unit { (plan : Project) → IsInLimits plan → (place : ℕ) → place < length plan.schema.tables → (t : ℕ) → 1 ≤ t → t ≤ last_unit plan →
        IsAppliedText One (layout_of plan).delimiter (table_text (generator_of plan) (t - 1) place ∷ unit_streams plan place t)
        (table_text (generator_of plan) t place) }
    ensures units { (plan : Project) → IsInLimits plan → (place : ℕ) → place < length plan.schema.tables →
        (from count : ℕ) → from + count ≤ last_unit plan →
        IsAppliedText One (layout_of plan).delimiter
        (table_text (generator_of plan) from place ∷ flat_map (unit_streams plan place) (range_with_len (from + 1) count))
        (table_text (generator_of plan) (from + count) place) }
{}

/// The shares of a part for all nodes, one after the other, are the whole content of the table. So is the share of a single node.
pub fn shares_are_the_whole()
    ensures joined { (plan : Project) → IsInLimits plan → (job : Job) → job.unit ≤ last_unit plan → 1 ≤ job.nodes →
        (part : Part) → part.place < length plan.schema.tables →
        flat_map (λ node. share_text plan job.unit (share_of plan (record job { node = node }) part)) (range_with_len 0 job.nodes)
        ≡ content_text plan job.unit part.place part.content }
    ensures alone { (plan : Project) → IsInLimits plan → (job : Job) → job.unit ≤ last_unit plan → job.node ≡ 0 → job.nodes ≡ 1 →
        (part : Part) → part.place < length plan.schema.tables →
        share_text plan job.unit (share_of plan job part) ≡ content_text plan job.unit part.place part.content }
{}

/// The packages of a share, one after the other, are the share. The number of entries of a package doesn't matter.
pub fn packages_are_the_share()
    ensures { (plan : Project) → IsInLimits plan → (job : Job) → IsJobOf plan job →
        (part : Part) → part.place < length plan.schema.tables → (size : ℕ) → 1 ≤ size →
        let share = share_of plan job part in
        flat_map (package_text plan job.unit size share) (range_with_len 0 (packages_in size share)) ≡ share_text plan job.unit share }
{}

/// A package of a job needs no more room than the longest line times the number of entries of a package.
pub fn packages_want_little_room()
    ensures snapshot { (plan : Project) (job : Job) →
        room_of (packages_of snapshot_contents plan job) ≤ job.package * reach (layout_of plan) }
    ensures unit { (plan : Project) (job : Job) → IsInLimits plan →
        room_of (packages_of unit_contents plan job) ≤ job.package * reach (layout_of plan) }
{}
