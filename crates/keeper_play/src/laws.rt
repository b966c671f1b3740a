//! The laws of played units, for accepted schemas. Each law is the contract of a function that does nothing.

ghost use Rattle.std.specs.Prelude.{◌≡◌, ◌≤◌, ℕ, length, take};
ghost use Rattle.schema_facts.specs.Dictionaries.{Project};
ghost use Rattle.schema_plan.specs.Limits.{IsInLimits};
ghost use Rattle.life_intervals.specs.Generator.{generator_of, last_unit};
ghost use Rattle.row_keeper.specs.Kept.{NoneDangles, no_rows, after_statements};
ghost use Rattle.keeper_play.specs.Statements.{held_statements, rows_after, rows_of_unit, statements_to};

/// After each statement of the units up to a given one, each reference of each row leads to a row that is kept then.
pub fn no_reference_dangles()
    ensures { (plan : Project) → IsInLimits plan → (unit count : ℕ) → unit ≤ last_unit plan →
        NoneDangles (rows_after (generator_of plan) unit count) }
{}

/// The statements of the units up to a given one leave exactly the rows that the tables hold at it, with their lines and their references
/// that aren't null.
pub fn statements_give_the_rows_of_the_unit()
    ensures { (plan : Project) → IsInLimits plan → (unit : ℕ) → unit ≤ last_unit plan →
        after_statements (statements_to (generator_of plan) unit) no_rows ≡ rows_of_unit (generator_of plan) unit }
{}

/// The rows of a unit can also be put at once, table by table, into a store without rows. After each statement each reference of each row leads
/// to a row that is kept then. All of them leave exactly the rows that the tables hold at the unit.
pub fn rows_of_a_unit_can_be_put_at_once()
    ensures none_dangles { (plan : Project) → IsInLimits plan → (unit count : ℕ) → unit ≤ last_unit plan →
        NoneDangles (after_statements (take count (held_statements (generator_of plan) unit)) no_rows) }
    ensures rows { (plan : Project) → IsInLimits plan → (unit : ℕ) → unit ≤ last_unit plan →
        after_statements (held_statements (generator_of plan) unit) no_rows ≡ rows_of_unit (generator_of plan) unit }
{}
