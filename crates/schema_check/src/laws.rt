//! Laws of the definitions that the contracts cite. Each law is the contract of a function without a body.

ghost use Rattle.std.specs.Prelude.{◌≡◌, ℕ, ◌<◌, ◌↔◌, Some, slice_get};
ghost use Rattle.schema_plan.specs.declared.broken.Broken.{Broken};
ghost use Rattle.schema_plan.specs.declared.rules.Rule.{Rule};
ghost use Rattle.schema_facts.specs.Dictionaries.{AreWordLists, Project};
ghost use Rattle.schema_plan.specs.Limits.{IsInLimits};
ghost use Rattle.schema_plan.specs.Rules.{first_broken, IsAccepted, IsFirstBreak, Keeps, rules};

/// A schema is accepted exactly if it keeps each rule.
pub fn accepted_schemas_keep_each_rule()
    ensures { (project : Project) → IsAccepted project
        ↔ ((i : ℕ) (rule : Rule) → slice_get rules i ≡ Some rule → Keeps rule project) }
{}

/// The first broken rule is one of the rules. It is broken at the told site and holds at each site before. Each rule before
/// it is kept.
pub fn first_broken_is_the_first_rule_at_its_first_site()
    ensures { (project : Project) (broken : Broken) → first_broken project ≡ Some broken →
        (i : ℕ) × (slice_get rules i ≡ Some broken.rule) × IsFirstBreak broken.rule project broken.site
        × ((k : ℕ) (other : Rule) → k < i → slice_get rules k ≡ Some other → Keeps other project) }
{}

/// An accepted schema with its word lists is within the limits that the laws of its data ask.
pub fn accepted_schemas_are_in_limits()
    ensures { (project : Project) → AreWordLists project.dictionaries → IsAccepted project → IsInLimits project }
{}
