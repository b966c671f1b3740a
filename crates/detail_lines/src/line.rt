//! The fields of one line, worked out column by column from the first to the last.

ghost use Rattle.std.specs.Prelude.{◌≡◌, ◌<◌, ◌≤◌, ℕ, ◌+◌, ◌++◌, IfSome, Some, is_some, length, true};
ghost use Rattle.std.specs.Fmt.{signed_decimal};
ghost use Rattle.std.specs.List.{fold};
ghost use Rattle.schema_facts.specs.FactsBefore.{facts_among};
ghost use Rattle.schema_facts.specs.FieldSizes.{greatest_by};
ghost use Rattle.schema_plan.specs.Ready.{ready_column};
ghost use Rattle.draw_values.specs.CohortValues.{IsNumberOf};
ghost use Rattle.draw_values.specs.Values.{is_null, number_text};
ghost use Rattle.row_lines.specs.Derived.{decimals_of, with_operand};
ghost use Rattle.row_lines.specs.Totals.{join_of, start_of, total_text};
ghost use Rattle.detail_lines.specs.Lines.{column_of, draws_of_line};
ghost use Rattle.detail_lines.specs.Made.{IsLineOver, delimiter_over, field_room, fields_room, line_over, own_over, size_over, written_field, written_fields};
ghost use Rattle.detail_lines.specs.Shown.{AreShown, IsAfterAt, IsDayAt, IsInCalendar, IsLineTotal, IsNumberAt, IsSeedAt, IsWide, day_text, digits_for, number_size, operands_of, value_text};

use crate::shown::Shown;
use detail_plan::DetailPlan;
use draw_values::{
    Number, days_after, is_null, leaf_day, leaf_number, put_date, put_leaf, put_number,
};
use line_pages::{PageBuf, Piece};
use philox_seeds::row_seed;
use row_lines::{Join, StillRow, joined, start_of};
use row_text::put_null;
use schema_plan::{ReadyAfter, ReadyColumn, ReadyKind, ReadyLeaf};
use std::marker::Model;
use std::sync::ledger::Ledger;
use step_count::Steps;

/// A line of a row of the parent, with what its fields are made of: the seeds of the columns for the row's units, and the ordinal by which they
/// are drawn. A contract sees the detail table over its plan, the unit, the row's ordinal and the line's number.
#[derive(Drop)]
pub(crate) struct DetailLine<'a> {
    detail: &'a DetailPlan,
    delimiter: u8,
    row: &'a StillRow<'a>,
    seeds: &'a [u64],
    number: u64,
    drawn: u64,
}

impl<'a> Model for DetailLine<'a> {
    ghost use Rattle.detail_lines.specs.Made.{IsLineOver, LineOver};

    ghost Value = { LineOver };

    ghost view = { λ l. record { over = record { plan = l.row.now.plan; kept = l.detail.now }; unit = l.row.now.unit; ordinal = l.row.now.ordinal; number = l.number } };

    ghost invariant = { λ l. IsLineOver (record { over = record { plan = l.row.now.plan; kept = l.detail.now }; unit = l.row.now.unit; ordinal = l.row.now.ordinal; number = l.number }) l.row.now l.delimiter l.seeds.now l.drawn };
}

/// Appends a day, or a null.
fn put_day(day: Option<i64>, page: &mut PageBuf)
    requires calendar { IfSome day IsInCalendar }
    requires room { length page.old.text + 10 ≤ page.old.room }
    ensures text { page.new ≡ record page.old { text = page.old.text ++ day_text day } }
    ensures size { length (day_text day) ≤ 10 }
{
    match day {
        Some(day) => put_date(day, page),
        None => put_null(page),
    }
}

/// Appends a number, or a null.
fn put_total(number: Option<Number>, page: &mut PageBuf)
    requires digits { IfSome number (λ n. n.decimals ≤ 9) }
    requires room { length page.old.text + 21 ≤ page.old.room }
    ensures text { page.new ≡ record page.old { text = page.old.text ++ total_text number } }
    ensures size { length (total_text number) ≤ 21 }
{
    match number {
        Some(number) => put_number(number, page),
        None => put_null(page),
    }
}

/// Appends a whole number. 20 bytes must be free.
fn put_whole(value: i64, page: &mut PageBuf)
    requires { length page.old.text + 20 ≤ page.old.room }
    ensures text { page.new ≡ record page.old { text = page.old.text ++ signed_decimal value } }
    ensures size { length (signed_decimal value) ≤ 20 }
{
    page.put_signed(value);
}

/// Appends a drawn number. Its greatest size must be free: 20 bytes, and one more if digits stand after the point.
fn put_drawn_number(number: Number, page: &mut PageBuf)
    requires digits { number.decimals ≤ 9 }
    requires room { length page.old.text + number_size number.decimals ≤ page.old.room }
    ensures text { page.new ≡ record page.old { text = page.old.text ++ number_text number } }
    ensures size { length (number_text number) ≤ number_size number.decimals }
{
    if number.decimals == 0 {
        put_whole(number.value, page);
    } else {
        put_number(number, page);
    }
}

impl<'a> DetailLine<'a> {
    /// Returns the line of a number of a row of the parent. `seeds` are those of the columns for the row's units.
    pub(crate) fn new(
        detail: &'a DetailPlan,
        delimiter: u8,
        row: &'a StillRow<'a>,
        seeds: &'a [u64],
        number: u64,
        drawn: u64,
    ) -> DetailLine<'a>
        requires { IsLineOver (record { over = record { plan = row.now.plan; kept = detail.now }; unit = row.now.unit; ordinal = row.now.ordinal; number = number }) row.now delimiter seeds.now drawn }
        ensures { result ≡ record { over = record { plan = row.now.plan; kept = detail.now }; unit = row.now.unit; ordinal = row.now.ordinal; number = number } }
    {
        DetailLine {
            detail,
            delimiter,
            row,
            seeds,
            number,
            drawn,
        }
    }

    /// Returns the column at a place.
    fn column(&self, column: usize) -> &'a ReadyColumn
        requires { column < own_over self.now.over }
        ensures { result.now ≡ ready_column (delimiter_over self.now.over) (column_of (line_over self.now) column) }
    {
        let columns = self.detail.columns();
        &columns[column]
    }

    /// Returns the seed from which the field of the column at a place is drawn. Returns 0 if it isn't drawn.
    fn seed(&self, column: usize) -> u64
        requires { column < own_over self.now.over }
        ensures { IsSeedAt self.now column result }
    {
        let drawn = self.drawn; // there are at most 32 seeds
        match &self.column(column).kind {
            ReadyKind::Drawn(_) => row_seed(self.seeds[column], drawn),
            _ => 0,
        }
    }

    /// Whether the field of the column at a place is drawn to be null.
    fn is_null(&self, column: usize) -> bool
        requires { column < own_over self.now.over }
        ensures { result ≡ is_null (column_of (line_over self.now) column).null (draws_of_line (line_over self.now) column) }
    {
        let drawn = self.drawn; // there are at most 32 seeds
        is_null(self.column(column).null, self.seeds[column], drawn)
    }

    /// Returns the day that the column at a place shows if it isn't drawn to be null. Returns None if it shows none.
    fn day<L: Ledger>(
        &self,
        column: usize,
        seed: u64,
        shown: &Shown,
        steps: &mut Steps<L>,
    ) -> Option<i64>
        requires column { column < own_over self.now.over }
        requires seed { IsSeedAt self.now column seed }
        requires shown { AreShown self.now column shown.now }
        ensures { IsDayAt self.now column result }
    {
        match &self.column(column).kind {
            ReadyKind::Drawn(leaf) => leaf_day(leaf, seed),
            ReadyKind::Lookup(lookup) => self.row.day(lookup.column as usize, steps),
            ReadyKind::After(after) => self.day_after(column, after, shown),
            _ => None,
        }
    }

    /// Returns the day of the column at a place, which is one of dates after dates.
    fn day_after(&self, column: usize, after: &ReadyAfter, shown: &Shown) -> Option<i64>
        requires column { column < own_over self.now.over }
        requires after { IsAfterAt self.now column after.now }
        requires shown { AreShown self.now column shown.now }
        ensures { IsDayAt self.now column result }
    {
        let drawn = self.drawn; // there are at most 32 columns
        let earlier = shown.days[after.of as usize]?;
        Some(earlier + days_after(after, self.seeds[column], drawn))
    }

    /// Returns the number that the column at a place holds if it isn't drawn to be null. Returns None if it holds none.
    fn number<L: Ledger>(
        &self,
        column: usize,
        seed: u64,
        shown: &Shown,
        steps: &mut Steps<L>,
    ) -> Option<Number>
        requires column { column < own_over self.now.over }
        requires seed { IsSeedAt self.now column seed }
        requires shown { AreShown self.now column shown.now }
        ensures { IsNumberAt self.now column result }
    {
        match &self.column(column).kind {
            ReadyKind::Drawn(leaf) => leaf_number(leaf, seed),
            ReadyKind::Lookup(lookup) => self.row.number(lookup.column as usize, steps),
            ReadyKind::Sum { of } => self.total(column, of.as_slice(), Join::Sum, shown),
            ReadyKind::Product { of } => self.total(column, of.as_slice(), Join::Product, shown),
            _ => None,
        }
    }

    /// Returns what the operands of a sum or a product in the column at a place come to. Returns None if one of them is null.
    fn total(&self, column: usize, of: &[u64], join: Join, shown: &Shown) -> Option<Number>
        requires column { column < own_over self.now.over }
        requires total { IsLineTotal self.now column of.now join }
        requires shown { AreShown self.now column shown.now }
        ensures total { (n : ℕ) → column ≤ n →
            result ≡ fold (with_operand (join_of join)) (Some (start_of join (digits_for self.now.over.kept.facts of.now))) (operands_of self.now n of.now) }
        ensures digits { is_some result ≡ true → (n : ℕ) → column ≤ n → greatest_by decimals_of (operands_of self.now n of.now) ≡ digits_for self.now.over.kept.facts of.now }
        ensures within { IfSome result (IsNumberOf (facts_among self.now.over.kept.facts column).numbers) }
    {
        let _limits = self.detail.detail(); // it has at most 32 columns
        let mut total = start_of(join, self.digits(column));
        for operand in of {
            let operand = shown.numbers[*operand as usize]?;
            total = joined(join, total, operand);
        }
        Some(total)
    }

    /// Returns how many digits stand after the point of the numbers of the column at a place, which is a total.
    fn digits(&self, column: usize) -> u32
        requires { IfSome (facts_among self.now.over.kept.facts column).numbers (λ numbers. numbers.decimals ≤ 9) }
        ensures { IfSome (facts_among self.now.over.kept.facts column).numbers (λ numbers. result ≡ numbers.decimals) }
    {
        match self.detail.facts(column).numbers {
            Some(numbers) => numbers.decimals as u32,
            None => 0,
        }
    }

    /// Appends a drawn value, by its day if it is a date and by its number if it is a number. So no draw is made twice.
    fn put_drawn(
        &self,
        column: usize,
        leaf: &ReadyLeaf,
        seed: u64,
        day: Option<i64>,
        number: Option<Number>,
        page: &mut PageBuf,
    )
        requires column { column < own_over self.now.over }
        requires drawn { (ready_column (delimiter_over self.now.over) (column_of (line_over self.now) column)).kind ≡ ReadyKind.Drawn leaf.now }
        requires seed { IsSeedAt self.now column seed }
        requires day { IsDayAt self.now column day }
        requires number { IsNumberAt self.now column number }
        requires room { length page.old.text + size_over self.now.over column ≤ page.old.room }
        ensures text { page.new ≡ record page.old { text = page.old.text ++ value_text self.now column } }
        ensures size { length (value_text self.now column) ≤ size_over self.now.over column }
    {
        let _limits = self.detail.detail(); // days are in the calendar, and numbers have at most 9 digits after the point
        match (day, number) {
            (Some(_), _) => put_day(day, page),
            (None, Some(number)) => put_drawn_number(number, page),
            (None, None) => put_leaf(leaf, seed, page),
        }
    }

    /// Appends the field of the column at a place, which isn't drawn to be null, by the day and the number of the column.
    fn put_value<L: Ledger>(
        &self,
        column: usize,
        seed: u64,
        day: Option<i64>,
        number: Option<Number>,
        page: &mut PageBuf,
        steps: &mut Steps<L>,
    )
        requires column { column < own_over self.now.over }
        requires seed { IsSeedAt self.now column seed }
        requires day { IsDayAt self.now column day }
        requires number { IsNumberAt self.now column number }
        requires room { length page.old.text + size_over self.now.over column ≤ page.old.room }
        ensures text { page.new ≡ record page.old { text = page.old.text ++ value_text self.now column } }
        ensures size { length (value_text self.now column) ≤ size_over self.now.over column }
    {
        let _limits = self.detail.detail(); // days are in the calendar, and totals have at most 9 digits after the point
        match &self.column(column).kind {
            ReadyKind::Drawn(leaf) => self.put_drawn(column, leaf, seed, day, number, page),
            ReadyKind::Lookup(lookup) => self.row.put(lookup.column as usize, page, steps),
            ReadyKind::After(_) => put_day(day, page),
            _ => put_total(number, page),
        }
    }

    /// Appends the delimiter and the field of the column at a place, and puts what it shows.
    fn put_field<L: Ledger>(
        &self,
        column: usize,
        shown: &mut Shown,
        page: &mut PageBuf,
        steps: &mut Steps<L>,
    )
        requires column { column < own_over self.now.over }
        requires shown { AreShown self.now column shown.old }
        requires room { length page.old.text + field_room self.now.over column ≤ page.old.room }
        ensures shown { AreShown self.now (column + 1) shown.new }
        ensures text { page.new ≡ record page.old { text = page.old.text ++ written_field self.now column } }
        ensures size { length (written_field self.now column) ≤ field_room self.now.over column }
    {
        page.put_piece(&Piece::of_byte(self.delimiter));
        if self.is_null(column) {
            shown.set(column, None, None);
            put_null(page);
            return;
        }
        let seed = self.seed(column);
        let day = self.day(column, seed, shown, steps);
        let number = self.number(column, seed, shown, steps);
        shown.set(column, day, number);
        self.put_value(column, seed, day, number, page, steps);
    }

    /// Appends the fields of the line, each with the delimiter before it, and puts what it shows.
    pub(crate) fn put_fields<L: Ledger>(
        &self,
        shown: &mut Shown,
        page: &mut PageBuf,
        steps: &mut Steps<L>,
    )
        requires wide { IsWide shown.old }
        requires room { length page.old.text + fields_room self.now.over (own_over self.now.over) ≤ page.old.room }
        ensures wide { IsWide shown.new }
        ensures text { page.new ≡ record page.old { text = page.old.text ++ written_fields self.now (own_over self.now.over) } }
        ensures size { length (written_fields self.now (own_over self.now.over)) ≤ fields_room self.now.over (own_over self.now.over) }
    {
        for column in 0..self.detail.detail().columns.len() {
            self.put_field(column, shown, page, steps);
        }
    }
}
