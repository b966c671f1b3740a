//! Which columns have bare literals: those that show numbers.

ghost use Rattle.std.specs.Prelude.{◌≡◌, ◌<◌, length};
ghost use Rattle.std.specs.List.{list_all};
ghost use Rattle.sql_lines.specs.Bare.{is_bare_at, is_bare_ready, is_bare_ready_leaf};
ghost use Rattle.sql_lines.specs.Statements.{column_count};

use schema_plan::{Plan, ReadyKind, ReadyLeaf};

/// Whether the literals of the column at a place of a table are bare.
pub(crate) fn is_bare_at(plan: &Plan, table: u32, column: usize) -> bool
    requires table { table < length plan.now.schema.tables }
    requires column { column < column_count plan.now table }
    ensures { result ≡ is_bare_at plan.now table column }
{
    let _limits = plan.schema(); // a lookup shows a column of an earlier table
    let columns = plan.columns(table);
    match &columns[column].kind {
        ReadyKind::Lookup(lookup) => {
            let shown = plan.columns(lookup.parent);
            is_bare(&shown[lookup.column as usize].kind)
        }
        kind => is_bare(kind),
    }
}

/// Whether a kind that shows no other table has bare literals.
fn is_bare(kind: &ReadyKind) -> bool
    ensures { result ≡ is_bare_ready kind.now }
{
    match kind {
        ReadyKind::Key => true,
        ReadyKind::Born => true,
        ReadyKind::Changed => true,
        ReadyKind::Drawn(leaf) => is_bare_leaf(leaf),
        ReadyKind::Case { branches, .. } => are_bare_leaves(branches.as_slice()),
        ReadyKind::Reference(_) => true,
        ReadyKind::Sum { .. } | ReadyKind::Product { .. } => true,
        _ => false,
    }
}

/// Whether each of some drawn values has bare literals.
fn are_bare_leaves(leaves: &[ReadyLeaf]) -> bool
    ensures { result ≡ list_all is_bare_ready_leaf leaves.now }
{
    for leaf in leaves {
        if !is_bare_leaf(leaf) {
            return false;
        }
    }
    true
}

/// Whether a drawn value has bare literals.
fn is_bare_leaf(leaf: &ReadyLeaf) -> bool
    ensures { result ≡ is_bare_ready_leaf leaf.now }
{
    match leaf {
        ReadyLeaf::Int { .. } => true,
        ReadyLeaf::Fixed { .. } => true,
        ReadyLeaf::Skew { .. } => true,
        _ => false,
    }
}
