//! The laws of lines and texts, each the contract of a function that does nothing.
//!
//! The texts are those of tables that are sound up to the unit (`life_intervals::laws`).
//!
//! A table is named by its place in the schema, from 0. Units, ordinals and the indices of a cohort's rows count from 0.

ghost use Rattle.std.specs.Prelude.{◌≡◌, ℕ, ℤ, pos, ◌+◌, ◌*◌, ◌%◌, ◌+ℤ◌, ◌<◌, ◌≤◌, ◌++◌, [], Bool, List, None, Some, codes, decimal, flat_map, if◌then◌else◌, false, length, slice_index_or, true, unwrap_or};
ghost use Rattle.std.specs.Option.{option_and_then, option_map};
ghost use Rattle.row_text.specs.Fields.{field_text, escaped_text};
ghost use Rattle.cohort_sizes.specs.Births.{born_count, cohort_size, first_ordinal};
ghost use Rattle.schema_facts.specs.Layout.{LeafLayout, PartLayout, born_kind, changed_kind, cited_part, column_at, key_kind, leaf_kind, list_kind, literal_part, lookup_kind, table_at, template_kind, unit_date_kind};
ghost use Rattle.schema_plan.specs.Limits.{is_cited, is_lookup_kind};
ghost use Rattle.dictionaries.specs.WordList.{WordList};
ghost use Rattle.draw_values.specs.Dates.{date_text};
ghost use Rattle.draw_values.specs.Values.{leaf_value, unless_null};
ghost use Rattle.life_intervals.specs.Generator.{Generator};
ghost use Rattle.schema_facts.specs.References.{Reference, reference_at};
ghost use Rattle.life_intervals.specs.Intervals.{held_parent, is_live, living, parent_of, row_at};
ghost use Rattle.life_intervals.specs.Keys.{key_of};
ghost use Rattle.life_intervals.specs.Rows.{Row};
ghost use Rattle.life_intervals.specs.Sound.{AreSound};
ghost use Rattle.line_pages.specs.Padding.{padded};
ghost use Rattle.row_lines.specs.Lines.{cohort_text, field, first_lines, key_line_of, line, line_if_live, line_of, part_text, table_text, text_before};
ghost use Rattle.row_lines.specs.RowViews.{draws_of};
ghost use Rattle.row_lines.specs.Worked.{billed, first_house, first_note, first_note_alone, labels, land, one, owned, pairs};

/// The text of a table at a unit is the lines of the ordinals that are born by the unit and alive.
pub fn text_is_the_lines_of_the_living()
    ensures { (units : ℕ) (generator : Generator) (unit place : ℕ) → AreSound units generator.tables → unit ≤ units →
        table_text generator unit place
        ≡ flat_map (line_of generator unit place) (living generator place unit) }
{}

/// The text of a table at a unit is the texts of its cohorts up to the unit's own, one after the other. A loop over the units of
/// birth writes it in this way.
pub fn text_is_the_cohorts_texts()
    ensures none { (generator : Generator) (unit place : ℕ) → text_before generator unit place 0 ≡ [] }
    ensures next { (generator : Generator) (unit place born : ℕ) →
        text_before generator unit place (born + 1)
        ≡ text_before generator unit place born ++ cohort_text generator unit place born }
    ensures all { (units : ℕ) (generator : Generator) (unit place : ℕ) → AreSound units generator.tables → unit ≤ units →
        table_text generator unit place ≡ text_before generator unit place (unit + 1) }
{}

/// A row that is alive adds its line to the text of its cohort. Any other row adds nothing.
pub fn cohort_text_grows_by_the_living()
    ensures none { (generator : Generator) (unit place born : ℕ) → first_lines generator unit place born 0 ≡ [] }
    ensures next { (generator : Generator) (unit place born count : ℕ) →
        first_lines generator unit place born (count + 1)
        ≡ first_lines generator unit place born count
        ++ line_if_live generator unit place (first_ordinal (table_at generator.tables place).births born + count) }
    ensures all { (generator : Generator) (unit place born : ℕ) →
        first_lines generator unit place born (cohort_size (table_at generator.tables place).births born)
        ≡ cohort_text generator unit place born }
{}

/// What a loop over units of birth and rows has made so far begins the table's text. It is the text of the cohorts before one, and
/// the lines of that cohort's first rows.
pub fn text_so_far_begins_the_text()
    ensures { (units : ℕ) (generator : Generator) (unit place born count : ℕ) → AreSound units generator.tables →
        unit ≤ units → born ≤ unit → count ≤ cohort_size (table_at generator.tables place).births born →
        (rest : List ℕ) × (table_text generator unit place
        ≡ (text_before generator unit place born ++ first_lines generator unit place born count) ++ rest) }
{}

/// What a row holds at a unit by which it is born.
/// - A key column that is never null holds the row's key.
/// - A reference whose fields no draw makes null holds the key of the parent that the row still has. It is null if the row has lost
///   the parent.
/// - A lookup of a living row holds what that parent holds at the unit in the column that is looked up.
/// - A column of units of birth or of last changes holds the unit, and one of their dates the day so many steps past the first. A list
///   holds the entry with the number of the row's ordinal modulo that of the entries. A column of drawn values holds what its draws
///   give. A template holds its parts, one after the other.
/// - Draw 0 can make the field of a lookup or of one of these columns null.
/// - A part of a template is a text or the row's field in the cited column. A padded part is that field, filled with zeros up to its
///   width. A null field gives nothing.
/// - A column that changes takes its draws at the unit of the row's last change. Any other column takes them at the row's birth.
/// - A parent by a cascading reference is never lost.
pub fn fields_of_a_row()
    ensures key { (generator : Generator) (unit place ordinal column : ℕ) →
        (column_at (table_at generator.tables place).columns column).kind ≡ key_kind →
        (column_at (table_at generator.tables place).columns column).null ≡ 0 →
        field generator unit place (row_at generator place unit ordinal) column
        ≡ Some (decimal (key_of generator place unit ordinal)) }
    ensures born { (generator : Generator) (unit place ordinal column : ℕ) →
        (column_at (table_at generator.tables place).columns column).kind ≡ born_kind →
        field generator unit place (row_at generator place unit ordinal) column
        ≡ unless_null (column_at (table_at generator.tables place).columns column).null
        (draws_of generator place (row_at generator place unit ordinal) column)
        (Some (decimal (row_at generator place unit ordinal).born)) }
    ensures changed { (generator : Generator) (unit place ordinal column : ℕ) →
        (column_at (table_at generator.tables place).columns column).kind ≡ changed_kind →
        field generator unit place (row_at generator place unit ordinal) column
        ≡ unless_null (column_at (table_at generator.tables place).columns column).null
        (draws_of generator place (row_at generator place unit ordinal) column)
        (Some (decimal (row_at generator place unit ordinal).changed)) }
    ensures date { (generator : Generator) (unit place ordinal column : ℕ) (changed : Bool) (start : ℤ) (step : ℕ) →
        (column_at (table_at generator.tables place).columns column).kind ≡ unit_date_kind changed start step →
        field generator unit place (row_at generator place unit ordinal) column
        ≡ unless_null (column_at (table_at generator.tables place).columns column).null
        (draws_of generator place (row_at generator place unit ordinal) column)
        (Some (date_text (start +ℤ pos (step * (if changed then (row_at generator place unit ordinal).changed else (row_at generator place unit ordinal).born))))) }
    ensures in_turn { (generator : Generator) (unit place ordinal column : ℕ) (words : WordList) →
        (column_at (table_at generator.tables place).columns column).kind ≡ list_kind words →
        field generator unit place (row_at generator place unit ordinal) column
        ≡ unless_null (column_at (table_at generator.tables place).columns column).null
        (draws_of generator place (row_at generator place unit ordinal) column)
        (Some (slice_index_or words.entries (ordinal % length words.entries) [])) }
    ensures drawn { (generator : Generator) (unit place ordinal column : ℕ) (leaf : LeafLayout) →
        (column_at (table_at generator.tables place).columns column).kind ≡ leaf_kind leaf →
        field generator unit place (row_at generator place unit ordinal) column
        ≡ unless_null (column_at (table_at generator.tables place).columns column).null
        (draws_of generator place (row_at generator place unit ordinal) column)
        (leaf_value leaf (draws_of generator place (row_at generator place unit ordinal) column)) }
    ensures reference { (units : ℕ) (generator : Generator) → AreSound units generator.tables →
        (place : ℕ) → place < length generator.tables → (unit : ℕ) → unit ≤ units →
        (ordinal : ℕ) → ordinal < born_count (table_at generator.tables place).births unit →
        (column : ℕ) (reference : Reference) → reference_at (table_at generator.tables place) column ≡ Some reference →
        (column_at (table_at generator.tables place).columns column).null ≡ 0 →
        field generator unit place (row_at generator place unit ordinal) column
        ≡ option_map (λ parent. decimal (key_of generator reference.parent unit parent)) (held_parent generator place unit ordinal reference) }
    ensures lookup { (units : ℕ) (generator : Generator) → AreSound units generator.tables →
        (place : ℕ) → place < length generator.tables → (unit : ℕ) → unit ≤ units →
        (ordinal : ℕ) → ordinal < born_count (table_at generator.tables place).births unit → is_live generator place unit ordinal ≡ true →
        (column via shown : ℕ) (reference : Reference) →
        (column_at (table_at generator.tables place).columns column).kind ≡ lookup_kind via reference.parent shown →
        reference_at (table_at generator.tables place) via ≡ Some reference →
        is_lookup_kind (column_at (table_at generator.tables reference.parent).columns shown).kind ≡ false →
        field generator unit place (row_at generator place unit ordinal) column
        ≡ unless_null (column_at (table_at generator.tables place).columns column).null
        (draws_of generator place (row_at generator place unit ordinal) column)
        (option_and_then (λ parent. field generator unit reference.parent (row_at generator reference.parent unit parent) shown)
        (held_parent generator place unit ordinal reference)) }
    ensures never_lost { (generator : Generator) (place unit ordinal : ℕ) (reference : Reference) → reference.nulls ≡ false →
        held_parent generator place unit ordinal reference ≡ Some (parent_of generator place unit ordinal reference) }
    ensures template { (generator : Generator) (unit place ordinal column : ℕ) (parts : List PartLayout) →
        (column_at (table_at generator.tables place).columns column).kind ≡ template_kind parts →
        field generator unit place (row_at generator place unit ordinal) column
        ≡ unless_null (column_at (table_at generator.tables place).columns column).null
        (draws_of generator place (row_at generator place unit ordinal) column)
        (Some (flat_map (part_text generator place (row_at generator place unit ordinal)) parts)) }
    ensures text { (generator : Generator) (place : ℕ) (row : Row) (bytes : List ℕ) →
        part_text generator place row (literal_part bytes) ≡ bytes }
    ensures cited { (generator : Generator) (unit place column : ℕ) (row : Row) →
        is_cited (column_at (table_at generator.tables place).columns column).kind ≡ true →
        part_text generator place row (cited_part column 0) ≡ unwrap_or (field generator unit place row column) [] }
    ensures padded { (generator : Generator) (unit place column : ℕ) (row : Row) →
        is_cited (column_at (table_at generator.tables place).columns column).kind ≡ true → (width : ℕ) →
        part_text generator place row (cited_part column width) ≡ unwrap_or (option_map (padded width) (field generator unit place row column)) [] }
    ensures drawn_at_change { (generator : Generator) (place column : ℕ) (row : Row) →
        (column_at (table_at generator.tables place).columns column).changes ≡ true →
        draws_of generator place row column ≡ generator.draw place column row.changed row.ordinal }
    ensures drawn_at_birth { (generator : Generator) (place column : ℕ) (row : Row) →
        (column_at (table_at generator.tables place).columns column).changes ≡ false →
        draws_of generator place row column ≡ generator.draw place column row.born row.ordinal }
{}

/// A template is escaped once: it is written as its parts are written, one after the other.
pub fn templates_are_written_part_by_part()
    ensures { (generator : Generator) (place : ℕ) (row : Row) (parts : List PartLayout) →
        escaped_text generator.delimiter (flat_map (part_text generator place row) parts)
        ≡ flat_map (λ part. escaped_text generator.delimiter (part_text generator place row part)) parts }
{}

/// The key line of a row is the key's field as it is written, and a line feed. This is true at any unit by which the row is born.
pub fn key_line_is_the_key_field()
    ensures { (generator : Generator) (last unit place ordinal : ℕ) → unit ≤ last →
        ordinal < born_count (table_at generator.tables place).births unit →
        (column_at (table_at generator.tables place).columns 0).kind ≡ key_kind →
        (column_at (table_at generator.tables place).columns 0).null ≡ 0 →
        key_line_of generator last place ordinal
        ≡ field_text generator.delimiter
        (field generator unit place (row_at generator place unit ordinal) 0) ++ codes "\n" }
{}

/// Dates after dates, sums and products worked out by hand: of a row, with a null among what they are made of, and through lookups.
pub fn worked_totals()
    ensures bill { table_text billed 0 0 ≡ codes "1\t1970-04-13\t1970-04-17\t\\N\t\\N\t3\t12.34\t37.02\t15.34\t\\N\t\\N\t-0.05\t-0.15\n" }
    ensures day_after_that_of_the_bill { field billed 0 1 first_house 3 ≡ Some (codes "1970-04-27") }
    ensures twice_that_of_the_bill { field billed 0 1 first_house 5 ≡ Some (codes "74.04") }
{}

/// Texts worked out by hand: a row at each unit; scrambled keys in cohorts of two, with none at unit 0; two rows at unit 0 only; a
/// note before and after its owner dies. Further, what a house looks up of its city: its birth, its label, and a null.
pub fn worked_texts()
    ensures row_at_each_unit { table_text one 2 0 ≡ codes "1\t0\n2\t1\n3\t2\n" }
    ensures scrambled { table_text pairs 2 0 ≡ codes "11|1|1\n10|1|1\n13|2|2\n12|2|2\n" }
    ensures empty { table_text pairs 0 0 ≡ [] }
    ensures at_unit_0_alone { table_text pairs 2 1 ≡ codes "0\n1\n" }
    ensures past_the_tables { table_text pairs 2 2 ≡ [] }
    ensures before_a_loss { line owned 1 1 first_note ≡ codes "1\t1\t0\tof 1\n" }
    ensures after_a_loss { line owned 2 1 first_note_alone ≡ codes "1\t\\N\t2\tof \n" }
    ensures birth_of_a_city { field land 0 1 first_house 2 ≡ Some (codes "0") }
    ensures label_of_a_city { field land 0 1 first_house 3 ≡ Some (codes "c5") }
    ensures null_beside_a_city { field land 0 1 first_house 4 ≡ None }
    ensures templates { table_text labels 1 0 ≡ codes "1\t\\N\tr1!\t[]\ta\\tb\\\\\t11\t\\N\n2\t\\N\tr2!\t[]\ta\\tb\\\\\t22\t\\N\n" }
{}
