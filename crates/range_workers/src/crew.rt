//! A crew of workers, whose pages come in the order of their packages.

ghost use Rattle.std.specs.Prelude.{◌≡◌, ◌+◌, ◌≤◌, ◌<◌, IfOk, List, [], ℕ, length, vec_capacity};
ghost use Rattle.ordered_sink.specs.Ordered.{after_offer};
ghost use Rattle.range_workers.specs.Crew.{IsCrewAt, IsOffering, last_page};
ghost use Rattle.range_workers.specs.declared.work.RoundClaims.{RoundClaims};

use crate::Packer;
use crate::work::RoundClaims;
use crate::workshop::Workshop;
use line_pages::PageBuf;
use ordered_sink::{Numbered, Ordered};
use out_of_memory::Memory;
use pd_outside::Gate;
use std::alloc::Global;
use std::thread::Threads;

/// The number of packages of a round for each worker.
const PACKAGES_EACH: usize = 4;

/// Workers who make the packages of a job, round after round. Only `new` takes memory.
pub(crate) struct Crew {
    shop: Workshop,
    /// The pages of the round that aren't handed out yet.
    ordered: Ordered,
    round: RoundClaims,
    /// The number of claimed numbers so far.
    claimed: u64,
}

impl Drop for Crew {
    fn drop(self) {
        let Crew {
            shop,
            ordered,
            round: _,
            claimed: _,
        } = self;
        drop(shop);
        drop(ordered);
    }
}

impl Crew {
    /// Makes workers with pages of `room` bytes, who made no package yet. Returns `Memory` if memory runs out.
    pub(crate) fn new(alloc: Global, workers: usize, room: usize) -> Result<Crew, Memory>
        requires some { 0 < workers }
        requires few { workers ≤ 64 }
        ensures { IfOk result (λ crew. (text : ℕ → List ℕ) (count : ℕ) → IsCrewAt text count room 0 crew) }
    {
        let shop = Workshop::new(alloc, workers, room)?;
        let ordered = Ordered::new(alloc, PACKAGES_EACH * workers)?;
        Ok(Crew {
            shop,
            ordered,
            round: RoundClaims {
                first: 0,
                base: 0,
                end: 0,
            },
            claimed: 0,
        })
    }

    /// Puts the page of the next package, number `n`, after the free pages. It stays there up to the next call.
    pub(crate) fn turn<R: Threads + Sync, P: Packer + Sync, G: Gate + Sync>(
        &mut self,
        rt: &R,
        packer: &P,
        gate: &G,
        n: u64,
    )
        requires number { n < P.count packer.now }
        requires at { IsCrewAt (P.text packer.now) (P.count packer.now) (P.room packer.now) n self.old }
        ensures at { IsCrewAt (P.text packer.now) (P.count packer.now) (P.room packer.now) (n + 1) self.new }
        ensures page { (last_page self.new).text ≡ P.text packer.now n }
        ensures some { 0 < length self.new.shop.pages.items }
    {
        self.make_ready(rt, packer, gate, n);
        let Numbered { n: _, page } = self.ordered.next_page().unwrap();
        self.shop.pages.push_reserved(page);
    }

    /// Lets the workers make the next round, if all pages of the last one were handed out.
    fn make_ready<R: Threads + Sync, P: Packer + Sync, G: Gate + Sync>(
        &mut self,
        rt: &R,
        packer: &P,
        gate: &G,
        n: u64,
    )
        requires number { n < P.count packer.now }
        requires at { IsCrewAt (P.text packer.now) (P.count packer.now) (P.room packer.now) n self.old }
        ensures at { IsCrewAt (P.text packer.now) (P.count packer.now) (P.room packer.now) n self.new }
        ensures begun { self.new.ordered.handed < self.new.ordered.count }
    {
        if self.ordered.finish().is_ok() {
            self.next_round(rt, packer, gate, n);
        }
    }

    /// Makes the packages of the next round: four for each worker, or as many as are left.
    fn next_round<R: Threads + Sync, P: Packer + Sync, G: Gate + Sync>(
        &mut self,
        rt: &R,
        packer: &P,
        gate: &G,
        n: u64,
    )
        requires number { n < P.count packer.now }
        requires at { IsCrewAt (P.text packer.now) (P.count packer.now) (P.room packer.now) n self.old }
        requires used_up { self.old.ordered.handed ≡ self.old.ordered.count }
        ensures at { IsCrewAt (P.text packer.now) (P.count packer.now) (P.room packer.now) n self.new }
        ensures begun { self.new.ordered.handed < self.new.ordered.count }
    {
        let left = packer.count() - n;
        let count = left.min((PACKAGES_EACH * self.shop.count) as u64);
        self.round = RoundClaims {
            first: n,
            base: self.claimed,
            end: self.claimed + count,
        };
        self.claimed = self.shop.run_round(rt, packer, gate, self.round);
        self.ordered.restart(self.round.base, count);
        offer_all(&mut self.shop.made, &mut self.ordered);
    }

    /// Returns the text of the last page.
    pub(crate) fn text(&self) -> &[u8]
        requires { 0 < length self.now.shop.pages.items }
        ensures { result.now ≡ (last_page self.now).text }
    {
        self.shop.pages[self.shop.pages.len() - 1].text()
    }
}

/// Offers all pages of a round, each under its claimed number.
fn offer_all(made: &mut Vec<Numbered>, ordered: &mut Ordered)
    ensures offered { (text : ℕ → List ℕ) (room : ℕ) (round : RoundClaims) → IsOffering text room round made.old.items ordered.old → IsOffering text room round made.new.items ordered.new }
    ensures all { made.new.items ≡ [] }
    ensures capacity { ordered.new.capacity ≡ ordered.old.capacity }
    ensures made_fit { vec_capacity made.new ≡ vec_capacity made.old }
{
    while !made.is_empty() {
        offer_one(made.take_last(), ordered);
    }
}

/// Offers a page under its number.
fn offer_one(numbered: Numbered, ordered: &mut Ordered)
    ensures { ordered.new ≡ after_offer ordered.old numbered.n numbered.page }
{
    let Numbered { n, page } = numbered;
    let _ = ordered.offer(n, page);
}
