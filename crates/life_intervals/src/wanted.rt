//! An order of a cohort's rows that must be made.

ghost use Rattle.std.specs.Prelude.{◌≡◌};

use id_permutation::Order;
use std::marker::Model;

/// An order that must be made: its number of rows and its seed. Without a seed each row has its own place. A contract sees the
/// order.
#[derive(Drop)]
pub(crate) struct Wanted {
    pub(crate) size: u64,
    pub(crate) seed: Option<u64>,
}

impl Model for Wanted {
    ghost use Rattle.std.specs.Prelude.{◌≤◌, ◌^◌, IfSome};
    ghost use Rattle.id_permutation.specs.Order.{Arrangement};

    ghost Value = { Arrangement };

    ghost view = { λ w. record { size = w.size; seed = w.seed } };

    ghost invariant = { λ w. IfSome w.seed (λ _. 1 ≤ w.size) × (w.size ≤ 2 ^ 40) };
}

impl Wanted {
    /// Returns the order. Takes no memory.
    pub(crate) fn by_rounds<'a>(&self) -> Order<'a>
        ensures { result ≡ self.now }
    {
        match self.seed {
            Some(seed) => Order::by_rounds(self.size, seed),
            None => Order::in_place(self.size),
        }
    }
}
