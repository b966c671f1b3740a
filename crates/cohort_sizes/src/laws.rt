//! Laws of births, each the contract of a function that does nothing.

ghost use Rattle.std.specs.Prelude.{◌≡◌, ℕ, ◌+◌, ◌*◌, ◌-◌, ◌<◌, ◌≤◌, ◌∷◌, []};
ghost use Rattle.cohort_sizes.specs.Births.{Births, LiesIn, birth, born_count, cohort_size, first_ordinal};

/// The birth of an ordinal is the only unit whose cohort has it, for any last unit.
pub fn birth_is_the_unit_of_the_cohort()
    ensures lies { (births : Births) (last ordinal : ℕ) → ordinal < born_count births last →
        (birth births last ordinal ≤ last) × LiesIn births (birth births last ordinal) ordinal }
    ensures only { (births : Births) (last unit ordinal : ℕ) → unit ≤ last → LiesIn births unit ordinal →
        birth births last ordinal ≡ unit }
{}

/// While one rate lasts, a table grows at each unit by this rate.
pub fn tables_grow_by_their_rates()
    ensures { (births : Births) (from until rate : ℕ) → from ≤ until →
        ((unit : ℕ) → from ≤ unit → unit < until → cohort_size births unit ≡ rate) →
        first_ordinal births until ≡ first_ordinal births from + (until - from) * rate }
{}

/// With one rate from unit 1 on, a table has the rows of unit 0 and the rate's rows for each later unit.
pub fn one_rate_grows_evenly()
    ensures { (rows rate unit : ℕ) →
        born_count (record { rows = rows; rates = record { from = 1; rows = rate } ∷ [] }) unit ≡ rows + unit * rate }
{}
