//! What a line shows in its first columns, as later columns read it.

ghost use Rattle.std.specs.Prelude.{◌≡◌, ◌<◌, None, get_or, length};
ghost use Rattle.detail_lines.specs.Shown.{IsSet, IsWide};

use draw_values::Number;

/// The most columns of a detail table.
pub(crate) const MOST_COLUMNS: usize = 32;

/// The days and the numbers of the first columns of a line. A column that is null, or has none, has None.
pub(crate) struct Shown {
    pub(crate) days: [Option<i64>; MOST_COLUMNS],
    pub(crate) numbers: [Option<Number>; MOST_COLUMNS],
}

impl Drop for Shown {
    fn drop(self) {
        let Shown {
            days: _,
            numbers: _,
        } = self;
    }
}

impl Shown {
    /// Returns places for what lines show, one line after the other.
    pub(crate) fn new() -> Shown
        ensures { IsWide result }
    {
        Shown {
            days: [None; MOST_COLUMNS],
            numbers: [None; MOST_COLUMNS],
        }
    }

    /// Puts what the line shows in the column at a place.
    pub(crate) fn set(&mut self, column: usize, day: Option<i64>, number: Option<Number>)
        requires column { column < MOST_COLUMNS }
        requires days { length self.old.days ≡ MOST_COLUMNS }
        requires numbers { length self.old.numbers ≡ MOST_COLUMNS }
        ensures { IsSet self.old column day number self.new }
    {
        self.days[column] = day;
        self.numbers[column] = number;
    }
}
