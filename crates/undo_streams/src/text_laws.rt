//! The laws of undo texts. Each law is the contract of a function that does nothing.

ghost use Rattle.std.specs.Prelude.{◌≡◌, ◌+◌, ◌*◌, ◌<◌, ◌≤◌, ◌^◌, [], codes, flat_map, length};
ghost use Rattle.std.specs.List.{range_with_len};
ghost use Rattle.schema_facts.specs.Layout.{layout_of};
ghost use Rattle.schema_plan.specs.Limits.{IsInLimits};
ghost use Rattle.schema_facts.specs.TableFacts.{reach};
ghost use Rattle.life_intervals.specs.Generator.{last_unit};
ghost use Rattle.row_lines.specs.Worked.{owned};
ghost use Rattle.undo_streams.specs.Packages.{Packages, count_of, room_of, text_numbered};
ghost use Rattle.undo_streams.specs.UndoText.{undo_text};
ghost use Rattle.undo_streams.specs.Worked.{last_undo_text, lodgers, plain_sales};

/// Undo texts that are worked out by hand, for five cases. Of customers, orders and their lines, one customer goes with his orders and their
/// lines, and another changes. Of owners and notes, one note loses its owner. Lodgers go from the middle of their list. A unit undoes a table
/// that was empty before. Unit 0 has an empty undo text.
pub fn worked_undo_texts()
    ensures customers { last_undo_text plain_sales 3 0 ≡ codes "drop\t4\nset\t3\t2\t2\nadd\t0\t1\t0\t1\n" }
    ensures orders { last_undo_text plain_sales 3 1 ≡ codes "drop\t4\nadd\t0\t1\t1\nadd\t1\t2\t1\nadd\t2\t3\t1\n" }
    ensures lines { last_undo_text plain_sales 3 2 ≡ codes "drop\t4\nadd\t0\t1\t1\nadd\t1\t2\t2\nadd\t2\t3\t3\n" }
    ensures owners { last_undo_text owned 2 0 ≡ codes "drop\t3\nadd\t0\t1\n" }
    ensures notes { last_undo_text owned 2 1 ≡ codes "drop\t3\nset\t1\t1\t0\tof 1\n" }
    ensures lodgers { last_undo_text lodgers 3 0 ≡ codes "drop\t5\ndrop\t6\nadd\t0\t1\nadd\t2\t4\n" }
    ensures first_lodgers { last_undo_text lodgers 1 0 ≡ codes "drop\t1\ndrop\t2\n" }
    ensures unit_0 { last_undo_text lodgers 0 0 ≡ [] }
{}

/// The packages of an undo text, one after the other, are the text. The number of lines of a package doesn't matter.
pub fn packages_are_the_text()
    ensures { (packages : Packages) → 1 ≤ packages.size →
        flat_map (text_numbered packages) (range_with_len 0 (count_of packages)) ≡ undo_text packages.plan packages.unit packages.table }
{}

/// A package of an undo text needs no more room than the number of its lines times the longest line with its word and place. There are at
/// most 2^42 packages.
pub fn packages_want_little()
    ensures room { (packages : Packages) → room_of packages ≤ packages.size * (26 + reach (layout_of packages.plan)) }
    ensures count { (packages : Packages) → IsInLimits packages.plan → packages.table < length packages.plan.schema.tables →
        1 ≤ packages.unit → packages.unit ≤ last_unit packages.plan → 1 ≤ packages.size → count_of packages ≤ 2 ^ 42 }
{}
