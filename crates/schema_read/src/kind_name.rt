//! The names of the kinds of a column and of a branch.

ghost use Rattle.std.specs.Prelude.{◌≡◌};
ghost use Rattle.schema_read.specs.Kinds.{kind_named, leaf_named};

/// A leaf kind: a kind of value that is drawn for a field only. Each branch of a case is of a leaf kind.
#[derive(Clone, Copy, Debug, PartialEq, Eq)]
pub enum LeafName {
    /// `int`
    Int,
    /// `fixed`
    Fixed,
    /// `date`
    Date,
    /// `pick`
    Pick,
    /// `skew`
    Skew,
    /// `dict`
    Dict,
    /// `words`
    Words,
    /// `chars`
    Chars,
    /// `uuid`
    Uuid,
}

/// A kind of column.
#[derive(Clone, Copy, Debug, PartialEq, Eq)]
pub enum KindName {
    /// `key`
    Key,
    /// `born`
    Born,
    /// `changed`
    Changed,
    /// `template`
    Template,
    /// `case`
    Case,
    /// `ref`
    Ref,
    /// `lookup`
    Lookup,
    /// `list`
    List,
    /// `born_date`
    BornDate,
    /// `changed_date`
    ChangedDate,
    /// `after`
    After,
    /// `sum`
    Sum,
    /// `product`
    Product,
    /// One of the leaf kinds.
    Leaf(LeafName),
}

/// Returns the leaf kind of this name, or None if there is none.
pub fn leaf_of_name(name: &str) -> Option<LeafName>
    ensures { result ≡ leaf_named name.now }
{
    match name {
        "int" => Some(LeafName::Int),
        "fixed" => Some(LeafName::Fixed),
        "date" => Some(LeafName::Date),
        "pick" => Some(LeafName::Pick),
        "skew" => Some(LeafName::Skew),
        "dict" => Some(LeafName::Dict),
        "words" => Some(LeafName::Words),
        "chars" => Some(LeafName::Chars),
        "uuid" => Some(LeafName::Uuid),
        _ => None,
    }
}

/// Returns the kind of this name, or None if there is none.
pub fn kind_of_name(name: &str) -> Option<KindName>
    ensures { result ≡ kind_named name.now }
{
    match name {
        "key" => Some(KindName::Key),
        "born" => Some(KindName::Born),
        "changed" => Some(KindName::Changed),
        "template" => Some(KindName::Template),
        "case" => Some(KindName::Case),
        "ref" => Some(KindName::Ref),
        "lookup" => Some(KindName::Lookup),
        "list" => Some(KindName::List),
        "born_date" => Some(KindName::BornDate),
        "changed_date" => Some(KindName::ChangedDate),
        "after" => Some(KindName::After),
        "sum" => Some(KindName::Sum),
        "product" => Some(KindName::Product),
        _ => match leaf_of_name(name) {
            Some(leaf) => Some(KindName::Leaf(leaf)),
            None => None,
        },
    }
}
