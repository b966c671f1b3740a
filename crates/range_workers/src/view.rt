//! What a seat of a claim table knows, and what each call teaches it.

ghost use Rattle.std.specs.Prelude.{[]};
ghost use Rattle.range_workers.specs.Rule.{IsKept};
ghost use Rattle.range_workers.specs.Steps.{TellsAll, TellsNumber};
ghost use Rattle.range_workers.specs.Views.{joined, new_worker, with_worker};
ghost use Rattle.range_workers.specs.declared.view.View.TheVariants as view;

use atomic_table::{Join, Play, Split, TableRule};
use std::collections::LinkedList;

/// What a seat knows. It occurs only in contracts and proofs; no value of it is made.
pub enum View {
    /// The caller's seat: the numbers that came back to it, and how many workers' seats are out.
    Caller { numbers: LinkedList<u64>, out: u64 },
    /// A worker's seat: the numbers that it claimed, none of them below `from`.
    Worker { numbers: LinkedList<u64>, from: u64 },
    /// A worker's seat after it was joined.
    Spent,
}

/// The rule of a claim table.
pub(crate) struct ClaimRule;

impl TableRule<(), View, ()> for ClaimRule {
    ghost holds = { λ _. IsKept };

    ghost first = { λ _. view.Caller [] 0 };
}

/// A worker claims a number.
pub(crate) struct Take;

impl Play<(), View> for Take {
    ghost then = { λ _. TellsNumber };
}

/// The caller reads how many numbers were claimed.
pub(crate) struct Read;

impl Play<(), View> for Read {
    ghost then = { λ _. TellsAll };
}

/// A worker's seat is split from the caller's.
pub(crate) struct Cut;

impl Split<View> for Cut {
    ghost left = { with_worker };

    ghost right = { new_worker };
}

/// A worker's numbers come back to the caller.
pub(crate) struct Merge;

impl Join<View> for Merge {
    ghost both = { joined };

    ghost spent = { view.Spent };
}
