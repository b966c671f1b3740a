//! What the rules ask of padded parts of templates.

ghost use Rattle.std.specs.Prelude.{◌≡◌};
ghost use Rattle.std.specs.List.{list_all};
ghost use Rattle.schema_plan.specs.Rules.{are_paddings, is_padding, is_whole_kind, is_whole_leaf, kind_at};

use schema_facts::{MAX_WIDTH, place_of_column};
use schema_model::{Column, Kind, Leaf, Part};

/// Whether a kind keeps the rule of padded parts. Each is padded to 1 to 64 bytes, and cites a column of whole numbers. The columns are
/// those of its table.
pub(crate) fn are_paddings(columns: &[Column], kind: &Kind) -> bool
    ensures { result ≡ are_paddings columns.now kind.now }
{
    match kind {
        Kind::Template { parts } => are_paddings_of(columns, parts.as_slice()),
        _ => true,
    }
}

fn are_paddings_of(columns: &[Column], parts: &[Part]) -> bool
    ensures { result ≡ list_all (is_padding columns.now) parts.now }
{
    parts.iter().all(|part| is_padding(columns, part))
}

fn is_padding(columns: &[Column], part: &Part) -> bool
    ensures { result ≡ is_padding columns.now part.now }
{
    match part {
        Part::Padded { column, width } => {
            1 <= *width
                && *width <= MAX_WIDTH
                && is_whole_at(columns, place_of_column(columns, column))
        }
        _ => true,
    }
}

/// Whether the column at a place holds whole numbers. Without such a column an earlier rule is broken, and nothing is asked.
fn is_whole_at(columns: &[Column], place: usize) -> bool
    ensures { result ≡ is_whole_kind (kind_at columns.now place) }
{
    columns.len() <= place || is_whole_kind(&columns[place].kind)
}

fn is_whole_kind(kind: &Kind) -> bool
    ensures { result ≡ is_whole_kind kind.now }
{
    match kind {
        Kind::Key { .. } | Kind::Born | Kind::Changed | Kind::Ref { .. } => true,
        Kind::Leaf(leaf) => is_whole_leaf(leaf),
        _ => false,
    }
}

fn is_whole_leaf(leaf: &Leaf) -> bool
    ensures { result ≡ is_whole_leaf leaf.now }
{
    matches!(leaf, Leaf::Int { .. } | Leaf::Skew { .. })
}
