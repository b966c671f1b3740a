//! The names of the kinds of a detail table's column.

ghost use Rattle.std.specs.Prelude.{◌≡◌};
ghost use Rattle.detail_plan.specs.Kinds.{kind_named};

use schema_read::{LeafName, leaf_of_name};

/// A kind of column of a detail table.
#[derive(Clone, Copy, Debug, PartialEq, Eq)]
pub(crate) enum DetailKindName {
    /// One of the leaf kinds of schemas.
    Leaf(LeafName),
    /// `parent`
    Parent,
    /// `after`
    After,
    /// `sum`
    Sum,
    /// `product`
    Product,
}

/// Returns the kind of this name, or None if there is none.
pub(crate) fn kind_of_name(name: &str) -> Option<DetailKindName>
    ensures { result ≡ kind_named name.now }
{
    match name {
        "parent" => Some(DetailKindName::Parent),
        "after" => Some(DetailKindName::After),
        "sum" => Some(DetailKindName::Sum),
        "product" => Some(DetailKindName::Product),
        _ => match leaf_of_name(name) {
            Some(leaf) => Some(DetailKindName::Leaf(leaf)),
            None => None,
        },
    }
}
