//! The rows of a plan.

ghost use Rattle.std.specs.Prelude.{◌≡◌, ◌<◌, ◌≤◌, length};
ghost use Rattle.life_intervals.specs.CohortOrders.{order_for};
ghost use Rattle.life_intervals.specs.CohortParents.{IsReferenceOf, deal_by, window_by};
ghost use Rattle.life_intervals.specs.Generator.{last_unit};
ghost use Rattle.life_intervals.specs.JobOrders.{AreOrdersOf};

use crate::job_orders::JobOrders;
use crate::orders::{Purpose, wanted, wanted_deal};
use crate::window::CandidateWindow;
use id_permutation::Order;
use schema_plan::{Plan, ReadyReference};
use std::marker::Model;

/// The rows of a plan, with the orders that are kept for it or with none. A contract sees the plan.
#[derive(Drop)]
pub struct Rows<'a> {
    plan: &'a Plan,
    kept: Option<&'a JobOrders>,
}

impl<'a> Model for Rows<'a> {
    ghost use Rattle.std.specs.Prelude.{IfSome};
    ghost use Rattle.schema_facts.specs.Dictionaries.{Project};
    ghost use Rattle.life_intervals.specs.JobOrders.{AreOrdersOf};

    ghost Value = { Project };

    ghost view = { λ r. r.plan.now };

    ghost invariant = { λ r. IfSome r.kept (λ kept. AreOrdersOf r.plan.now kept.now) };
}

impl<'a> Rows<'a> {
    /// Returns the rows of a plan without kept orders. Each place is found by rounds.
    #[inline]
    pub fn of(plan: &'a Plan) -> Rows<'a>
        ensures { result ≡ plan.now }
    {
        Rows { plan, kept: None }
    }

    /// Returns the rows of a plan with the orders that are kept for it.
    #[inline]
    pub fn with(plan: &'a Plan, orders: &'a JobOrders) -> Rows<'a>
        requires { AreOrdersOf plan.now orders.now }
        ensures { result ≡ plan.now }
    {
        Rows {
            plan,
            kept: Some(orders),
        }
    }

    /// Returns a copy of these rows.
    #[inline]
    pub fn copied(&self) -> Rows<'a>
        ensures { result ≡ self.now }
    {
        Rows {
            plan: self.plan,
            kept: self.kept,
        }
    }

    /// Returns the plan.
    #[inline]
    pub fn plan(&self) -> &'a Plan
        ensures { result.now ≡ self.now }
    {
        self.plan
    }

    /// Returns the order of the rows of a table that are born at a unit.
    #[inline]
    pub(crate) fn order(&self, table: u32, purpose: Purpose, unit: u64) -> Order<'a>
        requires table { table < length self.now.schema.tables }
        requires unit { unit ≤ last_unit self.now }
        ensures { result ≡ order_for self.now table purpose unit }
    {
        if let Some(kept) = self.kept {
            if let Some(order) = kept.order(table, purpose, unit) {
                return order;
            }
        }
        wanted(self.plan, table, purpose, unit).by_rounds()
    }

    /// Returns the candidates of the rows of a table that are born at a unit, by the reference in the column at a place.
    #[inline]
    pub(crate) fn window(
        &self,
        table: u32,
        column: u32,
        reference: &ReadyReference,
        unit: u64,
    ) -> CandidateWindow
        requires parent { reference.now.parent < length self.now.schema.tables }
        requires unit { unit ≤ last_unit self.now }
        requires reference { IsReferenceOf self.now table column reference.now }
        ensures { result ≡ window_by self.now reference.now unit }
    {
        if let Some(kept) = self.kept {
            if let Some(window) = kept.window(table, column, unit) {
                return window;
            }
        }
        CandidateWindow::of_cohort(self.plan, reference, unit)
    }

    /// Returns the order in which these candidates are dealt.
    #[inline]
    pub(crate) fn deal(
        &self,
        table: u32,
        column: u32,
        reference: &ReadyReference,
        unit: u64,
        window: &CandidateWindow,
    ) -> Order<'a>
        requires table { table < length self.now.schema.tables }
        requires reference { IsReferenceOf self.now table column reference.now }
        requires column { column < 64 }
        requires unit { unit ≤ last_unit self.now }
        requires window { window.now ≡ window_by self.now reference.now unit }
        ensures { result ≡ deal_by self.now table column reference.now unit }
    {
        if let Some(kept) = self.kept {
            if let Some(deal) = kept.deal(table, column, unit) {
                return deal;
            }
        }
        wanted_deal(self.plan, table, column, reference, unit, window).by_rounds()
    }
}
