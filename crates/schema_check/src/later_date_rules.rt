//! What the rules ask of dates that follow other dates.

ghost use Rattle.std.specs.Prelude.{◌≡◌, ◌<◌, length};
ghost use Rattle.schema_plan.specs.Rules.{is_after_range, is_later_date, kind_at};

use crate::column_rules::is_moving;
use schema_facts::Days;
use schema_model::{Column, Kind};

/// The most days between a date and the one that it follows.
const MAX_DAYS: i64 = 36_525;

/// Whether the column at a place keeps the rule of dates after dates. Such a column has days: the column that it follows is an earlier dated
/// one, and no day is past the calendar. That column doesn't move, unless the column changes itself.
pub(crate) fn is_later_date(days: Option<Days>, columns: &[Column], place: usize) -> bool
    requires { place < length columns.now }
    ensures { result ≡ is_later_date days columns.now place (kind_at columns.now place) }
{
    let column = &columns[place];
    match &column.kind {
        Kind::After { of, lo, hi } => {
            is_after_range(*lo, *hi)
                && days.is_some()
                && (column.changes || !is_moving(columns, of))
        }
        _ => true,
    }
}

fn is_after_range(lo: i64, hi: i64) -> bool
    ensures { result ≡ is_after_range lo hi }
{
    -MAX_DAYS <= lo && lo <= hi && hi <= MAX_DAYS
}
