//! Laws of the definitions that the contracts cite. Each law is the contract of a function without a body.

ghost use Rattle.std.specs.Prelude.{◌≡◌, ◌≤◌, ◌∷◌, ◌++◌, ℕ, [], codes};
ghost use Rattle.schema_plan.specs.Rules.{IsAccepted};
ghost use Rattle.sample_tables.specs.Schema.{sample_project};

/// The schema of a sample of any size from 1 to 1,000 breaks no rule.
pub fn samples_break_no_rule()
    ensures { (size : ℕ) → 1 ≤ size → size ≤ 1000 → IsAccepted (sample_project size) }
{}
