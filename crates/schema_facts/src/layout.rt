//! The keys, lives and references of a table in a layout.

ghost use Rattle.std.specs.Prelude.{◌≡◌};
ghost use Rattle.schema_facts.specs.Layout.{becomes_null, is_drawn_deal};

use schema_model::{Deal, OnDelete};

/// The keys of a table.
#[derive(Clone, Copy, Debug, PartialEq, Eq)]
pub struct Keys {
    /// The number from which the keys count.
    pub base: u64,
    /// Whether the keys of a cohort are in a drawn order. A cohort is the rows that are born at one unit.
    pub scramble: bool,
}

/// How many units a row lives.
#[derive(Clone, Copy, Debug, PartialEq, Eq)]
pub struct Span {
    /// The shortest life, in units.
    pub least: u64,
    /// The longest life, in units.
    pub most: u64,
}

/// Whether a reference becomes null when its parent is deleted. Otherwise its row is deleted too.
pub fn becomes_null(on_delete: OnDelete) -> bool
    ensures { result ≡ becomes_null on_delete }
{
    match on_delete {
        OnDelete::Cascade => false,
        OnDelete::Null => true,
    }
}

/// Whether a reference deals the parents in a drawn order. Otherwise it deals them in turn.
pub fn is_drawn_deal(deal: Deal) -> bool
    ensures { result ≡ is_drawn_deal deal }
{
    match deal {
        Deal::Turn => false,
        Deal::Drawn => true,
    }
}
