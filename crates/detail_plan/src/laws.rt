//! Laws of the definitions that the contracts cite. Each law is the contract of a function without a body.

ghost use Rattle.schema_facts.specs.Dictionaries.{Project};
ghost use Rattle.detail_plan.specs.Kept.{Kept, KeepsRules};
ghost use Rattle.detail_plan.specs.Limits.{AreMadeOfEarlier};

/// If a detail table keeps its rules, then each column that is made of others is made of earlier ones. It has days or numbers.
pub fn columns_are_made_of_earlier_ones()
    ensures { (plan : Project) (kept : Kept) → KeepsRules plan kept → AreMadeOfEarlier plan kept.facts kept.detail }
{}
