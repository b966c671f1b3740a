//! A detail table whose rules hold.

use crate::detail::Detail;
use schema_facts::{ColumnFacts, Dictionaries, MAX_ITEMS, facts_among};
use schema_model::Sequence;
use schema_plan::{Plan, ReadyColumn};
use std::marker::Model;

/// A detail table that keeps its rules over a plan, with all word lists, and what doesn't change from line to line. A column is named by its
/// place in the file, counted from 0. After the last one stands the reference to the parent, by which columns of the parent are lookups.
pub struct DetailPlan {
    detail: Detail,
    lists: Dictionaries,
    columns: Sequence<ReadyColumn>,
    facts: [ColumnFacts; MAX_ITEMS],
    reach: u64,
}

impl Drop for DetailPlan {
    fn drop(self) {
        let DetailPlan {
            detail,
            lists,
            columns,
            facts: _,
            reach: _,
        } = self;
        drop(detail);
        drop(lists);
        drop(columns);
    }
}

impl Model for DetailPlan {
    ghost use Rattle.detail_plan.specs.Kept.{Kept};
    ghost use Rattle.detail_plan.specs.Limits.{IsInLimits};

    ghost Value = { Kept };

    ghost view = { λ p. record { detail = p.detail; lists = p.lists; columns = p.columns; facts = p.facts; reach = p.reach } };

    ghost invariant = { λ p. IsInLimits p.lists p.detail };
}

impl DetailPlan {
    ghost use Rattle.std.specs.Prelude.{◌≡◌, ◌≤◌};
    ghost use Rattle.schema_facts.specs.FactsBefore.{facts_among};
    ghost use Rattle.detail_plan.specs.Limits.{IsInLimits};
    ghost use Rattle.detail_plan.specs.Kept.{KeepsRules};
    ghost use Rattle.detail_plan.specs.Rules.{reach_of};

    /// Makes the plan of a detail table within its limits.
    pub(crate) fn of_accepted(
        detail: Detail,
        lists: Dictionaries,
        columns: Sequence<ReadyColumn>,
        facts: [ColumnFacts; MAX_ITEMS],
        reach: u64,
    ) -> DetailPlan
        requires { IsInLimits lists detail }
        ensures { result ≡ record { detail = detail; lists = lists; columns = columns; facts = facts; reach = reach } }
    {
        DetailPlan {
            detail,
            lists,
            columns,
            facts,
            reach,
        }
    }

    /// Returns the detail table.
    pub fn detail(&self) -> &Detail
        ensures value { result.now ≡ self.now.detail }
        ensures limits { IsInLimits self.now.lists self.now.detail }
    {
        &self.detail
    }

    /// Returns the columns, ready for lines, and after them the reference to the parent.
    pub fn columns(&self) -> &[ReadyColumn]
        ensures { result.now ≡ self.now.columns }
    {
        self.columns.as_slice()
    }

    /// Returns the facts of the column at a place. Past the last one these are those of a column of the empty text.
    pub fn facts(&self, column: usize) -> ColumnFacts
        ensures { result ≡ facts_among self.now.facts column }
    {
        facts_among(&self.facts, column)
    }

    /// Returns the greatest size of all lines of a row of the parent, in bytes. If the rules hold over the plan, it is at most 65,536.
    pub fn reach(&self, plan: &Plan) -> u64
        requires { KeepsRules plan.now self.now }
        ensures reach { result ≡ reach_of plan.now self.now.lists self.now.detail }
        ensures most { result ≤ 65536 }
    {
        self.reach
    }
}
