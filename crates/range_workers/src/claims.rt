//! The claim table, from which several workers take the next number. Each number is taken once.

ghost use Rattle.std.specs.Prelude.{◌≡◌, ◌≤◌, [], IfOk};
ghost use Rattle.range_workers.specs.Rule.{AreAllBelow};
ghost use Rattle.range_workers.specs.Views.{CanClaim, CanJoin, CanSplit, IsAlone, from_of, joined, new_worker, numbers, with_number, with_worker};
ghost use Rattle.range_workers.specs.declared.view.View.TheVariants as seen;

use crate::view::{ClaimRule, Cut, Merge, Read, Take, View};
use atomic_table::{Seat, Table};
use out_of_memory::Memory;
use std::alloc::Global;

/// Numbers from 0 on, claimed one by one, each once, by the thread that comes next. Threads share the table by reference, and each takes a
/// seat of it. Only `new` takes memory, and no call waits for another thread.
#[derive(Drop)]
pub struct Claims {
    /// Its one word is the number of claimed numbers, which is also the next number to claim.
    table: Table<(), View, (), ClaimRule, Global>,
    ghost one_word: { table.shared.table_id.words ≡ 1 },
}

/// A seat of a claim table: the caller's, or a worker's. It takes no bytes.
#[derive(Drop)]
pub struct ClaimSeat {
    seat: Seat<(), View>,
    ghost no_slots: { seat.me.1 ≡ [] },
}

impl Claims {
    ghost use Rattle.range_workers.specs.Seats.{IsSeatOf, view};

    /// Returns a table with no claimed number, and the caller's seat.
    pub fn new(alloc: Global) -> Result<(Claims, ClaimSeat), Memory>
        ensures seat { IfOk result (λ made. IsSeatOf made.0 made.1) }
        ensures view { IfOk result (λ made. view made.1 ≡ seen.Caller [] 0) }
    {
        let (table, seat) = Table::of_words(alloc, &[0], &())?;
        Ok((Claims { table }, ClaimSeat { seat }))
    }

    /// Splits off a worker's seat. The caller has fewer than 64 of them out.
    pub fn split(&self, seat: &mut ClaimSeat) -> ClaimSeat
        requires seat { IsSeatOf self.now seat.old }
        requires caller { CanSplit (view seat.old) }
        ensures seat { IsSeatOf self.now seat.new }
        ensures caller { view seat.new ≡ with_worker (view seat.old) }
        ensures new_seat { IsSeatOf self.now result }
        ensures worker { view result ≡ new_worker (view seat.old) }
    {
        let seat = self.table.shared.split_seat::<Cut>(&mut seat.seat);
        ClaimSeat { seat }
    }

    /// Claims the next number in one atomic step, for a worker that has fewer than eight.
    pub fn claim(&self, seat: &mut ClaimSeat) -> u64
        requires seat { IsSeatOf self.now seat.old }
        requires worker { CanClaim (view seat.old) }
        ensures seat { IsSeatOf self.now seat.new }
        ensures number { view seat.new ≡ with_number result (view seat.old) }
        ensures from { from_of (view seat.old) ≤ result }
    {
        self.table.shared.fetch_add::<Take>(&mut seat.seat, 0, 1)
    }

    /// Gives the numbers of a worker back to the caller, who has at most 2^62 - 8.
    pub fn join(&self, seat: &mut ClaimSeat, other: ClaimSeat)
        requires seat { IsSeatOf self.now seat.old }
        requires other_seat { IsSeatOf self.now other }
        requires caller_and_worker { CanJoin (view seat.old) (view other) }
        ensures seat { IsSeatOf self.now seat.new }
        ensures caller { view seat.new ≡ joined (view seat.old) (view other) }
    {
        let ClaimSeat { seat: other } = other;
        self.table.shared.join_seat::<Merge>(&mut seat.seat, other);
    }

    /// Returns how many numbers were claimed, after all workers' seats came back. The caller then has each number below it once, and no
    /// other.
    pub fn claimed(&self, seat: &mut ClaimSeat) -> u64
        requires seat { IsSeatOf self.now seat.old }
        requires alone { IsAlone (view seat.old) }
        ensures seat { IsSeatOf self.now seat.new }
        ensures same { view seat.new ≡ view seat.old }
        ensures all { AreAllBelow result (numbers (view seat.new)) }
    {
        self.table.shared.load::<Read>(&mut seat.seat, 0)
    }
}
