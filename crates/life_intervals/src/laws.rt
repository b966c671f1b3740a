//! The laws of cohorts, of keys and of the simulation, each the contract of a function that does nothing.
//!
//! A table is named by its place in the schema, from 0. Units, ordinals and the indices of a cohort's rows count from 0.

ghost use Rattle.std.specs.Prelude.{◌≡◌, ℕ, ◌+◌, ◌*◌, ◌/◌, ◌-◌, ◌<◌, ◌≤◌, All, IfSome, ◌&&◌, ◌||◌, not, if◌then◌else◌, length, map, nat_lt, take, false, true, List, [], ◌∷◌, Some, None};
ghost use Rattle.std.specs.List.{flat_map, list_all, range_with_len};
ghost use Rattle.std.specs.List.Sorted.{IsPermutation};
ghost use Rattle.cohort_sizes.specs.Births.{Births, LiesIn, birth, born_count, cohort_size, first_ordinal, index_at};
ghost use Rattle.schema_facts.specs.Dictionaries.{Project};
ghost use Rattle.schema_facts.specs.Layout.{TableLayout, layout_of, table_at};
ghost use Rattle.schema_plan.specs.Limits.{IsInLimits};
ghost use Rattle.schema_facts.specs.Lineage.{death_cost, longest_life, sure_life};
ghost use Rattle.life_intervals.specs.Blocks.{block_of, places_choosing, places_of};
ghost use Rattle.life_intervals.specs.Changes.{IsLastChange, IsLastDue, due_by, first_due};
ghost use Rattle.life_intervals.specs.Children.{IsCandidate, IsInWindow, child_at, child_block, children};
ghost use Rattle.life_intervals.specs.CohortParents.{asked_for_change, asked_for_death};
ghost use Rattle.life_intervals.specs.Generator.{Generator, Order, generator_of, last_unit, table_of};
ghost use Rattle.life_intervals.specs.Intervals.{change_unit, changing, death, dying, first_death, held_parent, interval_state, is_after, is_live, known_of, loss_of, newborn, own_death, parent_of, row_at, rows_of};
ghost use Rattle.life_intervals.specs.Keys.{OrdersCohorts, key_in_cohort, key_of};
ghost use Rattle.schema_facts.specs.TableFacts.{change_cost};
ghost use Rattle.schema_facts.specs.References.{Reference, cascades_of, count_in_window, first_in_window, reference_at, references_of};
ghost use Rattle.life_intervals.specs.References.{choice};
ghost use Rattle.life_intervals.specs.Rows.{candidates, cohort};
ghost use Rattle.life_intervals.specs.Simulation.{holds_row, rows_at, simulation};
ghost use Rattle.life_intervals.specs.Sound.{AreSound};
ghost use Rattle.life_intervals.specs.Streams.{deleted, inserted, updated};
ghost use Rattle.life_intervals.specs.Worked.{block, customer_row, line_row, order_row, remark_row, sales_in_place, talks_in_place};

/// The permutations that a schema's seed gives its cohorts are bijections, for each purpose.
pub fn seeds_order_each_cohort()
    ensures { (project : Project) (place : ℕ) → OrdersCohorts (generator_of project) place }
{}

/// The key of a row is the key of its index in its cohort.
pub fn key_is_that_of_the_index()
    ensures { (generator : Generator) (place last unit index : ℕ) → unit ≤ last →
        index < cohort_size (table_at generator.tables place).births unit →
        key_of generator place last (first_ordinal (table_at generator.tables place).births unit + index)
        ≡ key_in_cohort generator place unit index }
{}

/// No two rows of a table have the same key, over all units. The keys are the numbers from the base on, as many as rows are born.
pub fn keys_are_distinct()
    ensures its_own { (generator : Generator) (place : ℕ) → OrdersCohorts generator place → (last i j : ℕ) →
        i < born_count (table_at generator.tables place).births last →
        j < born_count (table_at generator.tables place).births last →
        key_of generator place last i ≡ key_of generator place last j → i ≡ j }
    ensures from_base { (generator : Generator) (place : ℕ) → OrdersCohorts generator place → (last i : ℕ) →
        i < born_count (table_at generator.tables place).births last →
        (table_at generator.tables place).key.base ≤ key_of generator place last i }
    ensures within { (generator : Generator) (place : ℕ) → OrdersCohorts generator place → (last i : ℕ) →
        i < born_count (table_at generator.tables place).births last →
        key_of generator place last i
        < (table_at generator.tables place).key.base + born_count (table_at generator.tables place).births last }
{}

/// The simulation reaches the closed form's state, at each unit up to which the tables are sound.
pub fn simulation_is_the_closed_form()
    ensures { (units : ℕ) (generator : Generator) (unit : ℕ) → AreSound units generator.tables → unit ≤ units →
        simulation generator unit ≡ interval_state generator unit }
{}

/// The rows that a table holds at a unit are those of the ordinals that are born by the unit and alive.
pub fn rows_are_those_of_the_living()
    ensures { (units : ℕ) (generator : Generator) (place unit : ℕ) → AreSound units generator.tables → unit ≤ units →
        rows_at generator place unit ≡ rows_of generator place unit }
{}

/// A unit deletes the rows that are born before it and die at it, as they were at the unit before. It updates the rows born before
/// it that are alive and have the unit as their change unit. It inserts its cohort.
pub fn units_change_rows()
    ensures deletes { (units : ℕ) (generator : Generator) → AreSound units generator.tables →
        (place : ℕ) → place < length generator.tables → (unit : ℕ) → unit ≤ units →
        deleted generator place unit ≡ map (row_at generator place (unit - 1)) (dying generator place unit) }
    ensures updates { (units : ℕ) (generator : Generator) → AreSound units generator.tables →
        (place : ℕ) → place < length generator.tables → (unit : ℕ) → unit ≤ units →
        updated generator place unit ≡ map (row_at generator place unit) (changing generator place unit) }
    ensures inserts { (units : ℕ) (generator : Generator) → AreSound units generator.tables →
        (place : ℕ) → place < length generator.tables → (unit : ℕ) → unit ≤ units →
        inserted generator place unit ≡ map (row_at generator place unit) (newborn generator place unit) }
    ensures cohort { (units : ℕ) (generator : Generator) → AreSound units generator.tables →
        (place : ℕ) → place < length generator.tables → (unit : ℕ) → unit ≤ units →
        inserted generator place unit
        ≡ cohort generator.order unit (take place (simulation generator unit)) (table_at generator.tables place) }
{}

/// The candidates of each reference of a cohort are all rows that are born in its window, and there is at least one.
pub fn candidates_are_those_of_the_window()
    ensures whole { (units : ℕ) (generator : Generator) → AreSound units generator.tables →
        (place : ℕ) → place < length generator.tables → (unit : ℕ) → unit ≤ units →
        0 < cohort_size (table_at generator.tables place).births unit →
        All (λ reference. candidates reference unit (rows_at generator reference.parent unit)
        ≡ range_with_len (first_in_window (table_at generator.tables reference.parent).births reference.window unit)
        (count_in_window (table_at generator.tables reference.parent).births reference.window unit))
        (references_of (table_at generator.tables place)) }
    ensures some { (units : ℕ) (tables : List TableLayout) → AreSound units tables →
        (place : ℕ) → place < length tables → (unit : ℕ) → unit ≤ units →
        0 < cohort_size (table_at tables place).births unit →
        All (λ reference. 0 < count_in_window (table_at tables reference.parent).births reference.window unit)
        (references_of (table_at tables place)) }
{}

/// A row dies when its own life ends or when a parent by a cascading reference dies.
pub fn death_is_the_first_of_its_own_and_the_parents()
    ensures { (units : ℕ) (generator : Generator) → AreSound units generator.tables →
        (place : ℕ) → place < length generator.tables → (unit ordinal : ℕ) → unit ≤ units →
        ordinal < born_count (table_at generator.tables place).births unit →
        death generator place unit ordinal
        ≡ first_death (own_death generator place unit ordinal
        ∷ map (λ reference. death generator reference.parent unit (parent_of generator place unit ordinal reference))
        (cascades_of (table_at generator.tables place))) }
{}

/// A row's parents are those that it still has at the unit, reference by reference.
pub fn rows_have_the_parents_that_they_hold()
    ensures { (generator : Generator) (place unit ordinal : ℕ) →
        (row_at generator place unit ordinal).parents
        ≡ map (held_parent generator place unit ordinal) (references_of (table_at generator.tables place)) }
{}

/// A row loses a parent only by a nulling reference, when the parent dies. Until then the row has the parent.
pub fn parents_are_lost_where_they_die()
    ensures { (units : ℕ) (generator : Generator) → AreSound units generator.tables →
        (place : ℕ) → place < length generator.tables → (unit ordinal : ℕ) → unit ≤ units →
        ordinal < born_count (table_at generator.tables place).births unit →
        All (λ reference. loss_of generator place unit ordinal reference
        ≡ (if reference.nulls then death generator reference.parent unit (parent_of generator place unit ordinal reference) else None))
        (references_of (table_at generator.tables place)) }
{}

/// A row still has the parent of each cascading reference at a unit. Of its other parents it has those that are alive at the unit.
pub fn parents_are_held_while_they_live()
    ensures { (units : ℕ) (generator : Generator) → AreSound units generator.tables →
        (place : ℕ) → place < length generator.tables → (unit ordinal : ℕ) → unit ≤ units →
        ordinal < born_count (table_at generator.tables place).births unit →
        All (λ reference. let parent = parent_of generator place unit ordinal reference in
        held_parent generator place unit ordinal reference
        ≡ (if not reference.nulls || is_live generator reference.parent unit parent then Some parent else None))
        (references_of (table_at generator.tables place)) }
{}

/// A row is alive if its own life lasts and each parent by a cascading reference is alive.
pub fn rows_live_while_their_parents_do()
    ensures { (units : ℕ) (generator : Generator) → AreSound units generator.tables →
        (place : ℕ) → place < length generator.tables → (unit ordinal : ℕ) → unit ≤ units →
        ordinal < born_count (table_at generator.tables place).births unit →
        is_live generator place unit ordinal
        ≡ (is_after (own_death generator place unit ordinal) unit
        && list_all (λ reference. is_live generator reference.parent unit (parent_of generator place unit ordinal reference))
        (cascades_of (table_at generator.tables place))) }
{}

/// A reference that isn't null names a row that the parent's table holds at the same unit. This is true for each row that a table
/// holds.
pub fn parents_are_held()
    ensures { (units : ℕ) (generator : Generator) → AreSound units generator.tables →
        (place : ℕ) → place < length generator.tables → (unit ordinal : ℕ) → unit ≤ units →
        holds_row (rows_at generator place unit) ordinal ≡ true →
        All (λ reference. IfSome (held_parent generator place unit ordinal reference) (λ parent. holds_row (rows_at generator reference.parent unit) parent ≡ true))
        (references_of (table_at generator.tables place)) }
{}

/// No row that a table holds at a unit has a later change unit. So a unit updates the rows that are due at it and those that lose a
/// parent at it.
pub fn rows_change_by_their_unit()
    ensures { (units : ℕ) (generator : Generator) → AreSound units generator.tables →
        (place : ℕ) → place < length generator.tables → (unit : ℕ) → unit ≤ units →
        All (λ row. row.changed ≤ unit) (rows_at generator place unit) }
{}

/// A death takes at most as many permutations as its cost.
pub fn deaths_ask_at_most_their_cost()
    ensures { (project : Project) → IsInLimits project → (place : ℕ) → place < length project.schema.tables →
        asked_for_death project place ≤ death_cost (layout_of project).tables place }
{}

/// A row's last change takes at most as many permutations as its cost.
pub fn changes_ask_at_most_their_cost()
    ensures { (project : Project) → IsInLimits project → (place : ℕ) → place < length project.schema.tables →
        asked_for_change project place ≤ change_cost (layout_of project) place }
{}

/// A row's death, and the end of its own life, are the same at each unit by which the row is born.
pub fn death_is_for_good()
    ensures death { (generator : Generator) (place unit last ordinal : ℕ) →
        ordinal < born_count (table_at generator.tables place).births unit → unit ≤ last →
        death generator place last ordinal ≡ death generator place unit ordinal }
    ensures own { (generator : Generator) (place unit last ordinal : ℕ) →
        ordinal < born_count (table_at generator.tables place).births unit → unit ≤ last →
        own_death generator place last ordinal ≡ own_death generator place unit ordinal }
{}

/// A row's parent is the same at each unit by which the row is born.
pub fn parents_are_for_good()
    ensures { (generator : Generator) (place unit last ordinal : ℕ) (reference : Reference) →
        ordinal < born_count (table_at generator.tables place).births unit → unit ≤ last →
        parent_of generator place last ordinal reference ≡ parent_of generator place unit ordinal reference }
{}

/// The parents of a cohort's rows are among the cohort's candidates. Candidates are born in the window of the reference, which ends
/// at the cohort's unit.
pub fn parents_are_born_in_the_window()
    ensures candidate { (project : Project) → IsInLimits project → (table : ℕ) → table < length project.schema.tables → (unit : ℕ) → unit ≤ last_unit project →
        (column : ℕ) (reference : Reference) → reference_at (table_of project table) column ≡ Some reference →
        (ordinal : ℕ) → LiesIn (table_of project table).births unit ordinal →
        IsCandidate project reference unit (parent_of (generator_of project) table unit ordinal reference) }
    ensures window { (project : Project) (reference : Reference) (unit parent : ℕ) → IsCandidate project reference unit parent →
        IsInWindow reference.window unit (birth (table_of project reference.parent).births unit parent) }
{}

/// The children that a row has in a cohort are the rows at the places of its blocks, each once. The blocks come turn by turn, up to
/// the first turn that has none. No later turn has one, and there are no more turns with a block than rows.
pub fn blocks_have_the_children()
    ensures children { (project : Project) → IsInLimits project → (table : ℕ) → table < length project.schema.tables → (unit : ℕ) → unit ≤ last_unit project →
        (column : ℕ) (reference : Reference) → reference_at (table_of project table) column ≡ Some reference →
        (parent : ℕ) → IsCandidate project reference unit parent →
        (turns : ℕ) → child_block project table reference parent unit turns ≡ None →
        IsPermutation (children project table reference unit parent)
        (map (child_at project table column unit) (flat_map (λ turn. places_of (child_block project table reference parent unit turn)) (range_with_len 0 turns))) }
    ensures ends { (project : Project) → IsInLimits project → (table : ℕ) → table < length project.schema.tables → (unit : ℕ) → unit ≤ last_unit project →
        (column : ℕ) (reference : Reference) → reference_at (table_of project table) column ≡ Some reference →
        (parent : ℕ) → IsCandidate project reference unit parent →
        child_block project table reference parent unit (cohort_size (table_of project table).births unit) ≡ None }
    ensures over { (project : Project) → IsInLimits project → (table : ℕ) → table < length project.schema.tables → (unit : ℕ) → unit ≤ last_unit project →
        (column : ℕ) (reference : Reference) → reference_at (table_of project table) column ≡ Some reference →
        (parent turn later : ℕ) → turn ≤ later → child_block project table reference parent unit turn ≡ None →
        child_block project table reference parent unit later ≡ None }
{}

/// A row's own life ends between the least and the most units after its birth that the table's lives allow.
pub fn own_lives_end_in_their_span()
    ensures { (project : Project) → IsInLimits project → (place : ℕ) → place < length project.schema.tables →
        (unit ordinal death : ℕ) → own_death (generator_of project) place unit ordinal ≡ Some death →
        let born = birth (table_of project place).births unit ordinal in
        IfSome (table_of project place).life (λ span. (born + span.least ≤ death) × (death ≤ born + span.most)) }
{}

/// The change unit of a row is the last of its due units and of the units at which it loses a parent. If it has no due unit, its
/// birth stands for it.
pub fn change_unit_is_the_last_due_or_loss()
    ensures due { (order : Order) (place : ℕ) (table : TableLayout) (born index unit period : ℕ) → table.update ≡ Some period → 1 ≤ period →
        IsLastDue born (first_due order place born index period) period unit (due_by order place table born index unit) }
    ensures never_due { (order : Order) (place : ℕ) (table : TableLayout) (born index unit : ℕ) → table.update ≡ None →
        due_by order place table born index unit ≡ born }
    ensures last { (generator : Generator) (place unit ordinal : ℕ) →
        let table = table_at generator.tables place in
        let due = due_by generator.order place table (birth table.births unit ordinal) (index_at table.births unit ordinal) unit in
        IsLastChange unit due (map (loss_of generator place unit ordinal) (references_of table)) (change_unit generator place unit ordinal) }
{}

/// The tables of an accepted schema are sound up to its last unit.
pub fn accepted_tables_are_sound()
    ensures { (project : Project) → IsInLimits project → AreSound (last_unit project) (generator_of project).tables }
{}

/// All rows of a cohort are alive while its sure life lasts. None is alive once its longest life has ended.
pub fn lives_last_from_the_sure_to_the_longest()
    ensures sure { (project : Project) → IsInLimits project → (place : ℕ) → place < length project.schema.tables →
        (unit index age : ℕ) → unit ≤ last_unit project → index < cohort_size (table_of project place).births unit →
        is_after (sure_life (layout_of project).tables place) age ≡ true →
        is_after ((known_of (generator_of project) place).death unit index) (unit + age) ≡ true }
    ensures longest { (project : Project) → IsInLimits project → (place : ℕ) → place < length project.schema.tables →
        (unit index age : ℕ) → unit ≤ last_unit project → index < cohort_size (table_of project place).births unit →
        is_after (longest_life (layout_of project).tables place) age ≡ false →
        is_after ((known_of (generator_of project) place).death unit index) (unit + age) ≡ false }
{}

/// The data of a unit don't depend on what follows it. Schemas that differ only in their last unit have one generator, and so the
/// same tables, texts and changes at each unit that both reach.
pub fn data_do_not_depend_on_the_last_unit()
    ensures { (project : Project) (last : _) →
        generator_of (record project { schema = record project.schema { units = last } }) ≡ generator_of project }
{}

/// Thirteen places that choose among four candidates by a spread of one, two and three, worked out by hand.
pub fn worked_choices()
    ensures { map (choice (1 ∷ 2 ∷ 3 ∷ []) 4) (range_with_len 0 13)
        ≡ 0 ∷ 1 ∷ 1 ∷ 2 ∷ 2 ∷ 2 ∷ 3 ∷ 0 ∷ 0 ∷ 1 ∷ 1 ∷ 1 ∷ 2 ∷ [] }
{}

/// The places at which each of these candidates is chosen. The blocks of two candidates, turn by turn, for thirteen places and for
/// eleven.
pub fn worked_blocks()
    ensures first_places { places_choosing (1 ∷ 2 ∷ 3 ∷ []) 13 4 0 ≡ 0 ∷ 7 ∷ 8 ∷ [] }
    ensures second_places { places_choosing (1 ∷ 2 ∷ 3 ∷ []) 13 4 1 ≡ 1 ∷ 2 ∷ 9 ∷ 10 ∷ 11 ∷ [] }
    ensures third_places { places_choosing (1 ∷ 2 ∷ 3 ∷ []) 13 4 2 ≡ 3 ∷ 4 ∷ 5 ∷ 12 ∷ [] }
    ensures fourth_places { places_choosing (1 ∷ 2 ∷ 3 ∷ []) 13 4 3 ≡ 6 ∷ [] }
    ensures first_candidate { map (block_of (1 ∷ 2 ∷ 3 ∷ []) 13 4 0) (range_with_len 0 3) ≡ block 0 1 ∷ block 7 2 ∷ None ∷ [] }
    ensures third_candidate { map (block_of (1 ∷ 2 ∷ 3 ∷ []) 13 4 2) (range_with_len 0 3) ≡ block 3 3 ∷ block 12 1 ∷ None ∷ [] }
    ensures second_of_eleven { map (block_of (1 ∷ 2 ∷ 3 ∷ []) 11 4 1) (range_with_len 0 3) ≡ block 1 2 ∷ block 9 2 ∷ None ∷ [] }
    ensures third_of_eleven { map (block_of (1 ∷ 2 ∷ 3 ∷ []) 11 4 2) (range_with_len 0 2) ≡ block 3 3 ∷ None ∷ [] }
{}

/// The tables of customers, orders and lines are sound up to their schema's last unit. So are the tables of customers and remarks.
pub fn worked_soundness()
    ensures sales { AreSound 5 sales_in_place.tables }
    ensures talks { AreSound 5 talks_in_place.tables }
{}

/// Customers, orders and lines at unit 3, by the steps of the simulation and by the closed form.
pub fn worked_state()
    ensures simulated { simulation sales_in_place 3
        ≡ (customer_row 1 2 1 1 ∷ customer_row 2 3 2 2 ∷ customer_row 3 3 3 1 ∷ []) ∷ (order_row 3 9 1 ∷ []) ∷ (line_row 3 ∷ []) ∷ [] }
    ensures closed { interval_state sales_in_place 3
        ≡ (customer_row 1 2 1 1 ∷ customer_row 2 3 2 2 ∷ customer_row 3 3 3 1 ∷ []) ∷ (order_row 3 9 1 ∷ []) ∷ (line_row 3 ∷ []) ∷ [] }
{}

/// What unit 3 does to customers, orders and lines. The first customer dies, its three orders die with it, and their lines die with
/// the orders.
pub fn worked_streams()
    ensures customers_deleted { deleted sales_in_place 0 3 ≡ customer_row 0 1 1 1 ∷ [] }
    ensures orders_deleted { deleted sales_in_place 1 3 ≡ order_row 0 7 0 ∷ order_row 1 8 0 ∷ order_row 2 9 0 ∷ [] }
    ensures lines_deleted { deleted sales_in_place 2 3 ≡ line_row 0 ∷ line_row 1 ∷ line_row 2 ∷ [] }
    ensures customers_updated { updated sales_in_place 0 3 ≡ customer_row 2 3 2 2 ∷ [] }
    ensures orders_updated { updated sales_in_place 1 3 ≡ [] }
    ensures customers_inserted { inserted sales_in_place 0 3 ≡ customer_row 3 3 3 1 ∷ [] }
    ensures orders_inserted { inserted sales_in_place 1 3 ≡ order_row 3 9 1 ∷ [] }
    ensures lines_inserted { inserted sales_in_place 2 3 ≡ line_row 3 ∷ [] }
{}

/// What unit 3 does to customers and remarks, by the steps of the simulation and by the closed form. The first customer dies, and
/// three remarks lose it as their parent. The unit deletes none of them, and updates these three.
pub fn worked_losses()
    ensures simulated { simulation talks_in_place 3
        ≡ (customer_row 1 2 1 1 ∷ customer_row 2 3 2 2 ∷ customer_row 3 3 3 1 ∷ [])
        ∷ (remark_row 0 3 None ∷ remark_row 1 3 None ∷ remark_row 2 3 None ∷ remark_row 3 3 (Some 1) ∷ []) ∷ [] }
    ensures closed { interval_state talks_in_place 3
        ≡ (customer_row 1 2 1 1 ∷ customer_row 2 3 2 2 ∷ customer_row 3 3 3 1 ∷ [])
        ∷ (remark_row 0 3 None ∷ remark_row 1 3 None ∷ remark_row 2 3 None ∷ remark_row 3 3 (Some 1) ∷ []) ∷ [] }
    ensures remarks_deleted { deleted talks_in_place 1 3 ≡ [] }
    ensures remarks_updated { updated talks_in_place 1 3 ≡ remark_row 0 3 None ∷ remark_row 1 3 None ∷ remark_row 2 3 None ∷ [] }
{}
