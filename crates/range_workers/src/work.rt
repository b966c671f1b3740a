//! Workers that claim the packages of a round and make them side by side, each on its own pages.

ghost use Rattle.std.specs.Prelude.{◌≡◌, ◌+◌, ◌-◌, ◌<◌, All, length};
ghost use Rattle.std.specs.Thread.{IsSync};
ghost use Rattle.range_workers.specs.Round.{CanWork, HasWorked, IsRoundOf};

use crate::{ClaimSeat, Claims, Packer};
use line_pages::PageBuf;
use ordered_sink::Numbered;
use pd_outside::Gate;
use std::thread::{Threads, join_mut};

/// The number of pages of a worker, and the most numbers that it claims in a round.
pub(crate) const PAGES_EACH: usize = 8;

/// The numbers of a round. It claims the numbers from `base` up to `end`, and `base` stands for package `first`.
#[derive(Clone, Copy)]
pub(crate) struct RoundClaims {
    pub(crate) first: u64,
    pub(crate) base: u64,
    pub(crate) end: u64,
}

/// The pages of a worker.
pub(crate) struct Bench {
    /// The blank pages.
    pub(crate) blank: Vec<PageBuf>,
    /// The pages that it made in the round, each with the number that it claimed.
    pub(crate) made: Vec<Numbered>,
}

impl Drop for Bench {
    fn drop(self) {
        let Bench { blank, made } = self;
        drop(blank);
        drop(made);
    }
}

/// A worker in a round.
#[derive(Drop)]
pub(crate) struct RoundWorker {
    pub(crate) seat: ClaimSeat,
    pub(crate) bench: Bench,
}

/// Claims numbers and makes their packages, each on a blank page. Stops after eight claims, or when a number is past the round.
fn work<P: Packer, G: Gate>(
    packer: &P,
    gate: &G,
    claims: &Claims,
    round: RoundClaims,
    worker: &mut RoundWorker,
)
    requires round { IsRoundOf (P.count packer.now) round }
    requires worker { CanWork claims.now (P.room packer.now) round.base worker.old }
    ensures { HasWorked claims.now (P.text packer.now) (P.room packer.now) round worker.new }
{
    for _ in 0..PAGES_EACH {
        let number = claims.claim(&mut worker.seat);
        if number >= round.end {
            return;
        }
        let mut page = worker.bench.blank.take_last();
        make_page(packer, gate, round.first + (number - round.base), &mut page);
        worker
            .bench
            .made
            .push_reserved(Numbered { n: number, page });
    }
}

/// Makes package `n` on a page, after it has entered the gate.
pub(crate) fn make_page<P: Packer, G: Gate>(packer: &P, gate: &G, n: u64, page: &mut PageBuf)
    requires number { n < P.count packer.now }
    requires room { page.old.room ≡ P.room packer.now }
    ensures { page.new ≡ record { text = P.text packer.now n; room = P.room packer.now } }
{
    gate.enter(n);
    page.clear();
    packer.pack(n, page);
}

/// Lets all workers work side by side in threads.
pub(crate) fn work_all<R: Threads + Sync, P: Packer + Sync, G: Gate + Sync>(
    rt: &R,
    packer: &P,
    gate: &G,
    claims: &Claims,
    round: RoundClaims,
    workers: &mut [RoundWorker],
)
    requires round { IsRoundOf (P.count packer.now) round }
    requires workers { All (CanWork claims.now (P.room packer.now) round.base) workers.old }
    ensures workers { All (HasWorked claims.now (P.text packer.now) (P.room packer.now) round) workers.new }
    ensures length { length workers.new ≡ length workers.old }
{
    if workers.len() < 2 {
        if let [worker] = workers {
            work(packer, gate, claims, round, worker);
        }
        return;
    }
    let (front, back) = workers.split_at_mut(workers.len() / 2);
    join_mut(
        rt,
        &mut ||
            requires { IsSync R.row × IsSync P.row × IsSync G.row × IsRoundOf (P.count packer.now) round × All (CanWork claims.now (P.room packer.now) round.base) front.now }
            ensures { All (HasWorked claims.entry.now (P.text packer.entry.now) (P.room packer.entry.now) round) front.exit.now × (length front.exit.now ≡ length front.entry.now) }
        { work_all(rt, packer, gate, claims, round, front) },
        &mut ||
            requires { IsSync R.row × IsSync P.row × IsSync G.row × IsRoundOf (P.count packer.now) round × All (CanWork claims.now (P.room packer.now) round.base) back.now }
            ensures { All (HasWorked claims.entry.now (P.text packer.entry.now) (P.room packer.entry.now) round) back.exit.now × (length back.exit.now ≡ length back.entry.now) }
        { work_all(rt, packer, gate, claims, round, back) },
    );
}
