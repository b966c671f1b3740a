//! The packages of a detail table's lines.

ghost use Rattle.std.specs.Prelude.{◌≡◌, ◌<◌, ◌≤◌, ◌-◌, ◌*◌, ◌^◌, [], IfOk, length, min};
ghost use Rattle.detail_plan.specs.Kept.{KeepsRules};
ghost use Rattle.detail_rows.specs.Packages.{AreTold, count_of, package_count, range_text, room_of, rows_in, text_numbered};

use crate::parent_lines::ParentLines;
use detail_lines::LineKind;
use detail_plan::DetailPlan;
use line_pages::PageBuf;
use out_of_memory::Memory;
use range_workers::Packer;
use std::alloc::Global;
use std::marker::{Brand, Model};
use std::sync::ledger::{Blank, Ledger};
use step_count::Steps;

/// Which lines are made, and of which rows of the parent.
#[derive(Clone, Copy, Debug)]
pub enum PackedRows<'a> {
    /// The lines of all rows that the parent holds at a unit.
    All { unit: u64 },
    /// Only the keys of the lines of the rows of these ordinals.
    Keys { ordinals: &'a [u64] },
    /// The lines at a unit of the rows of these ordinals.
    Lines { ordinals: &'a [u64], unit: u64 },
    /// The lines of the rows that are born at a unit. `Lines` gives the same for all their ordinals.
    Born { unit: u64 },
}

/// The packages of a detail table's lines, each of so many rows of the parent. A package is made only from the plan, the orders that are kept for its
/// rows, and the given rows. A contract sees the plan, the detail table, the rows and the number of rows of a package.
#[derive(Drop)]
pub struct DetailPacker<'a> {
    lines: ParentLines<'a>,
    told: PackedRows<'a>,
    size: u64,
    many: u64,
    count: u64,
    room: usize,
}

impl<'a> Model for DetailPacker<'a> {
    ghost use Rattle.std.specs.Prelude.{◌≡◌, ◌≤◌, ◌^◌};
    ghost use Rattle.detail_rows.specs.Packages.{ArePackages, Packages};

    ghost Value = { Packages };

    ghost view = { λ p. record { plan = p.lines.plan; kept = p.lines.kept; rows = p.told; size = p.size } };

    ghost invariant = { λ p. ArePackages (record { plan = p.lines.plan; kept = p.lines.kept; rows = p.told; size = p.size }) p.many p.count p.room };
}

/// Returns the number of rows: those born by the unit, those listed, or those born at the unit.
fn rows_in(lines: &ParentLines<'_>, told: &PackedRows<'_>) -> u64
    requires { AreTold lines.now.plan lines.now.kept told.now }
    ensures many { result ≡ rows_in lines.now.plan lines.now.kept told.now }
    ensures few { result ≤ 2 ^ 60 }
{
    match told {
        PackedRows::All { unit } => lines.born(*unit),
        PackedRows::Keys { ordinals } | PackedRows::Lines { ordinals, .. } => ordinals.len() as u64,
        PackedRows::Born { unit } => lines.cohort(*unit).size,
    }
}

/// Returns how many packages of at most `size` rows hold `many` rows.
fn package_count(size: u64, many: u64) -> u64
    requires some { 1 ≤ size }
    requires size { size ≤ 1000000 }
    requires many { many ≤ 2 ^ 60 }
    ensures count { result ≡ package_count size many }
    ensures few { result ≤ 2 ^ 60 }
{
    (many + (size - 1)) / size
}

/// Puts the lines of the rows from position `first` up to the one before `end` on an empty page.
fn put_range<L: Ledger>(
    lines: &ParentLines<'_>,
    told: &PackedRows<'_>,
    first: u64,
    end: u64,
    page: &mut PageBuf,
    steps: &mut Steps<L>,
)
    requires told { AreTold lines.now.plan lines.now.kept told.now }
    requires ordered { first ≤ end }
    requires within { end ≤ rows_in lines.now.plan lines.now.kept told.now }
    requires empty { page.old.text ≡ [] }
    requires room { (end - first) * lines.now.kept.reach ≤ page.old.room }
    ensures text { page.new ≡ record page.old { text = range_text lines.now.plan lines.now.kept told.now first end } }
    ensures size { length (range_text lines.now.plan lines.now.kept told.now first end) ≤ (end - first) * lines.now.kept.reach }
{
    match told {
        PackedRows::All { unit } => lines.put_living(*unit, first, end - first, page, steps),
        PackedRows::Keys { ordinals } => {
            let listed = &ordinals[first as usize..end as usize];
            lines.put_listed(LineKind::KeysAlone, lines.last_unit(), listed, page, steps);
        }
        PackedRows::Lines { ordinals, unit } => {
            let listed = &ordinals[first as usize..end as usize];
            lines.put_listed(LineKind::Whole, *unit, listed, page, steps);
        }
        PackedRows::Born { unit } => {
            let born = lines.cohort(*unit).first;
            lines.put_living(*unit, born + first, end - first, page, steps);
        }
    }
}

impl<'a> DetailPacker<'a> {
    /// Makes the packages of the lines of some rows of a detail table's parent, over the rows of a plan. A package has `size` rows, 1 to 1,000,000.
    /// Refuses if memory is wanting.
    pub fn new(
        alloc: Global,
        rows: life_intervals::Rows<'a>,
        detail: &'a DetailPlan,
        told: PackedRows<'a>,
        size: u64,
    ) -> Result<DetailPacker<'a>, Memory>
        requires keeps { KeepsRules rows detail.now }
        requires some_row { 1 ≤ size }
        requires size_limit { size ≤ 1000000 }
        requires told { AreTold rows detail.now told }
        ensures { IfOk result (λ packer. packer ≡ record { plan = rows.entry; kept = detail.now; rows = told.entry; size = size }) }
    {
        let lines = ParentLines::new(alloc, rows, detail)?;
        let many = rows_in(&lines, &told);
        let room = size.min(many) * lines.reach();
        Ok(DetailPacker {
            lines,
            told,
            size,
            many,
            count: package_count(size, many),
            room: room as usize,
        })
    }

    /// Puts the lines of package `n` on an empty page.
    fn put_package<B: Ledger>(&self, n: u64, page: &mut PageBuf, blank: Blank)
        requires name { blank.name ≡ B.name }
        requires parts { blank.parts ≡ B.parts }
        requires some { 0 < blank.parts }
        requires number { n < count_of self.now }
        requires empty { page.old.text ≡ [] }
        requires room { room_of self.now ≤ page.old.room }
        ensures text { page.new ≡ record page.old { text = text_numbered self.now n } }
        ensures size { length (text_numbered self.now n) ≤ room_of self.now }
    {
        let mut steps = Steps::<B>::new(blank);
        let first = n * self.size;
        let end = self.many.min(first + self.size);
        put_range(&self.lines, &self.told, first, end, page, &mut steps);
    }

    /// Puts the lines of package `n` on an empty page, and counts no steps.
    fn put_uncounted(&self, n: u64, page: &mut PageBuf)
        requires number { n < count_of self.now }
        requires empty { page.old.text ≡ [] }
        requires room { room_of self.now ≤ page.old.room }
        ensures text { page.new ≡ record page.old { text = text_numbered self.now n } }
        ensures size { length (text_numbered self.now n) ≤ room_of self.now }
    {
        self.put_package::<Brand>(n, page, Blank::new(1));
    }
}

impl<'a> Packer for DetailPacker<'a> {
    ghost text = { text_numbered };

    ghost count = { count_of };

    ghost room = { room_of };

    fn count(&self) -> u64 {
        self.count
    }

    fn room(&self) -> usize {
        self.room
    }

    fn pack(&self, n: u64, page: &mut PageBuf) {
        self.put_uncounted(n, page);
    }
}
