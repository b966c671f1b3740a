//! The workers of a job, round after round: they go out with seats and blank pages, and come back with what they made.

ghost use Rattle.std.specs.Prelude.{◌≡◌, ◌+◌, ◌<◌, ◌≤◌, ◌*◌, ◌++◌, All, IfOk, [], ℕ, length, vec_capacity};
ghost use Rattle.range_workers.specs.Round.{HasRoom, IsRoundOf};
ghost use Rattle.range_workers.specs.Rule.{AreAllBelow};
ghost use Rattle.range_workers.specs.Seats.{IsSeatOf, view};
ghost use Rattle.range_workers.specs.Views.{CanJoin, joined, numbers};
ghost use Rattle.range_workers.specs.Workshop.{HasMade, IsAtRest, IsCleared, IsGoingOut, IsSameShop};

use crate::work::{Bench, PAGES_EACH, RoundClaims, RoundWorker, work_all};
use crate::{ClaimSeat, Claims, Packer};
use line_pages::PageBuf;
use ordered_sink::Numbered;
use out_of_memory::Memory;
use pd_outside::Gate;
use std::alloc::Global;
use std::thread::Threads;

/// Workers with all that they have, between rounds and in one. Only `new` takes memory.
pub(crate) struct Workshop {
    pub(crate) claims: Claims,
    /// The caller's seat.
    pub(crate) seat: ClaimSeat,
    /// The number of workers.
    pub(crate) count: usize,
    /// The room of each page, in bytes.
    pub(crate) room: usize,
    /// The benches of the workers that aren't out.
    pub(crate) benches: Vec<Bench>,
    /// The workers that are out.
    pub(crate) workers: Vec<RoundWorker>,
    /// Pages whose text isn't wanted any longer.
    pub(crate) pages: Vec<PageBuf>,
    /// The pages that were made in the round.
    pub(crate) made: Vec<Numbered>,
}

impl Drop for Workshop {
    fn drop(self) {
        let Workshop {
            claims,
            seat,
            count: _,
            room: _,
            benches,
            workers,
            pages,
            made,
        } = self;
        drop(claims);
        drop(seat);
        drop(benches);
        drop(workers);
        drop(pages);
        drop(made);
    }
}

impl Workshop {
    /// Makes the workshop of `count` workers, with eight pages of `room` bytes for each. Returns `Memory` if memory runs out.
    pub(crate) fn new(alloc: Global, count: usize, room: usize) -> Result<Workshop, Memory>
        requires { count ≤ 64 }
        ensures rest { IfOk result IsAtRest }
        ensures room { IfOk result (λ shop. shop.room ≡ room) }
        ensures count { IfOk result (λ shop. shop.count ≡ count) }
        ensures none { IfOk result (λ shop. AreAllBelow 0 (numbers (view shop.seat))) }
    {
        let (claims, seat) = Claims::new(alloc)?;
        let benches = new_benches(alloc, count)?;
        let workers = Vec::with_capacity(alloc, count)?;
        let pages = new_pages(alloc, PAGES_EACH * count, room)?;
        let made = Vec::with_capacity(alloc, PAGES_EACH * count)?;
        Ok(Workshop {
            claims,
            seat,
            count,
            room,
            benches,
            workers,
            pages,
            made,
        })
    }

    /// Sends all workers out, each with a seat and eight pages.
    fn set_out(&mut self)
        requires { IsAtRest self.old }
        ensures out { IsGoingOut self.new }
        ensures all { length self.new.benches.items ≡ 0 }
        ensures same { IsSameShop self.old self.new }
        ensures numbers { numbers (view self.new.seat) ≡ numbers (view self.old.seat) }
    {
        while !self.benches.is_empty() {
            let mut bench = self.benches.take_last();
            deal(&mut self.pages, &mut bench.blank);
            let seat = self.claims.split(&mut self.seat);
            self.workers.push_reserved(RoundWorker { seat, bench });
        }
    }

    /// Takes back a worker, with its numbers and its pages.
    fn take_back(&mut self, worker: RoundWorker)
        requires seat { IsSeatOf self.old.claims self.old.seat }
        requires worker_seat { IsSeatOf self.old.claims worker.seat }
        requires seats { CanJoin (view self.old.seat) (view worker.seat) }
        requires blank { length self.old.pages.items + length worker.bench.blank.items ≤ vec_capacity self.old.pages }
        requires made { length self.old.made.items + length worker.bench.made.items ≤ vec_capacity self.old.made }
        requires benches { length self.old.benches.items < vec_capacity self.old.benches }
        requires cleared { All IsCleared self.old.benches.items }
        requires blank_fit { 8 ≤ vec_capacity worker.bench.blank }
        requires made_fit { 8 ≤ vec_capacity worker.bench.made }
        ensures seat { IsSeatOf self.new.claims self.new.seat }
        ensures knows { view self.new.seat ≡ joined (view self.old.seat) (view worker.seat) }
        ensures pages { self.new.pages.items ≡ self.old.pages.items ++ worker.bench.blank.items }
        ensures made { self.new.made.items ≡ self.old.made.items ++ worker.bench.made.items }
        ensures benches { length self.new.benches.items ≡ length self.old.benches.items + 1 }
        ensures cleared { All IsCleared self.new.benches.items }
        ensures workers { self.new.workers ≡ self.old.workers }
        ensures same { IsSameShop self.old self.new }
        ensures benches_fit { vec_capacity self.old.benches ≤ vec_capacity self.new.benches }
        ensures pages_fit { vec_capacity self.old.pages ≤ vec_capacity self.new.pages }
        ensures made_fit { vec_capacity self.old.made ≤ vec_capacity self.new.made }
    {
        let RoundWorker { seat, mut bench } = worker;
        self.claims.join(&mut self.seat, seat);
        // There is room for both.
        let _ = self.pages.append(&mut bench.blank);
        let _ = self.made.append(&mut bench.made);
        self.benches.push_reserved(bench);
    }

    /// Makes the packages of a round by all workers, who then come back, so that there is one page for each number of the round. Returns how
    /// many numbers were claimed so far.
    pub(crate) fn run_round<R: Threads + Sync, P: Packer + Sync, G: Gate + Sync>(
        &mut self,
        rt: &R,
        packer: &P,
        gate: &G,
        round: RoundClaims,
    ) -> u64
        requires rest { IsAtRest self.old }
        requires room { self.old.room ≡ P.room packer.now }
        requires round { IsRoundOf (P.count packer.now) round }
        requires part { round.end ≤ round.base + 4 * self.old.count }
        requires claimed { AreAllBelow round.base (numbers (view self.old.seat)) }
        ensures made { HasMade (P.text packer.now) round result self.new }
        ensures same { IsSameShop self.old self.new }
    {
        self.set_out();
        work_all(
            rt,
            packer,
            gate,
            &self.claims,
            round,
            self.workers.as_mut_slice(),
        );
        while !self.workers.is_empty() {
            let worker = self.workers.take_last();
            self.take_back(worker);
        }
        self.claims.claimed(&mut self.seat)
    }
}

/// Moves eight pages from one list to another, which is empty.
fn deal(from: &mut Vec<PageBuf>, to: &mut Vec<PageBuf>)
    requires enough { 8 ≤ length from.old.items }
    requires none { to.old.items ≡ [] }
    requires fit { 8 ≤ vec_capacity to.old }
    ensures rooms { (room : ℕ) → All (HasRoom room) from.old.items → All (HasRoom room) to.new.items × All (HasRoom room) from.new.items }
    ensures dealt { length to.new.items ≡ 8 }
    ensures left { length from.new.items + 8 ≡ length from.old.items }
    ensures to_fit { vec_capacity to.new ≡ vec_capacity to.old }
    ensures from_fit { vec_capacity from.new ≡ vec_capacity from.old }
{
    for _ in 0..PAGES_EACH {
        to.push_reserved(from.take_last());
    }
}

/// Makes benches with no pages.
fn new_benches(alloc: Global, count: usize) -> Result<Vec<Bench>, Memory>
    ensures cleared { IfOk result (λ benches. All IsCleared benches.items) }
    ensures count { IfOk result (λ benches. length benches.items ≡ count) }
    ensures fit { IfOk result (λ benches. count ≤ vec_capacity benches) }
{
    let mut benches = Vec::with_capacity(alloc, count)?;
    for _ in 0..count {
        let blank = Vec::with_capacity(alloc, PAGES_EACH)?;
        let made = Vec::with_capacity(alloc, PAGES_EACH)?;
        benches.push(Bench { blank, made })?;
    }
    Ok(benches)
}

/// Makes pages of `room` bytes.
fn new_pages(alloc: Global, count: usize, room: usize) -> Result<Vec<PageBuf>, Memory>
    ensures rooms { IfOk result (λ pages. All (HasRoom room) pages.items) }
    ensures count { IfOk result (λ pages. length pages.items ≡ count) }
    ensures fit { IfOk result (λ pages. count ≤ vec_capacity pages) }
{
    let mut pages = Vec::with_capacity(alloc, count)?;
    for _ in 0..count {
        pages.push(PageBuf::with_room(alloc, room)?)?;
    }
    Ok(pages)
}
