//! Rounds of pages, which wait in slots by their numbers.

ghost use Rattle.std.specs.Prelude.{◌≡◌, ◌≤◌, ◌<◌, ◌+◌, ◌^◌, IfOk, IsTrue, None, replicate};
ghost use Rattle.ordered_sink.specs.Ordered.{after_next, after_offer, answer, begun, finished, has_number, next, no_round, was_offered};

use crate::{Missing, Numbered, Refused};
use line_pages::PageBuf;
use out_of_memory::Memory;
use std::alloc::Global;
use std::marker::Model;

/// Pages that are offered in any order and handed out in the order of their numbers, round after round. A round awaits the pages of
/// consecutive numbers, each once. Only `new` takes memory.
#[derive(Drop)]
pub struct Ordered {
    /// The pages that wait, each at its number minus the round's first one.
    slots: Vec<Option<PageBuf>>,
    /// The first number of the round.
    first: u64,
    /// The number of pages of the round.
    count: u64,
    /// The number of pages that were handed out.
    handed: u64,
}

impl Model for Ordered {
    ghost use Rattle.std.specs.Prelude.{length};
    ghost use Rattle.ordered_sink.specs.Ordered.{Round};
    ghost use Rattle.ordered_sink.specs.Slots.{KeepsRound, pages_from};

    ghost Value = { Round };

    ghost view = { λ o. record {
      capacity = length o.slots.items;
      first = o.first;
      count = o.count;
      handed = o.handed;
      waiting = pages_from o.first o.slots.items;
    } };

    ghost invariant = { λ o. KeepsRound o.slots.items o.first o.count o.handed };
}

impl Ordered {
    /// Makes rounds of at most `capacity` numbers, with no number awaited yet. Returns `Memory` if memory runs out.
    pub fn new(alloc: Global, capacity: usize) -> Result<Ordered, Memory>
        ensures { IfOk result (λ round. round ≡ no_round capacity) }
    {
        let slots = empty_slots(alloc, capacity)?;
        Ok(Ordered {
            slots,
            first: 0,
            count: 0,
            handed: 0,
        })
    }

    /// Begins a round that awaits the pages of `count` numbers from `first` on. All pages of the round before were handed out.
    pub fn restart(&mut self, first: u64, count: u64)
        requires capacity { count ≤ self.old.capacity }
        requires range { first + count < 2 ^ 63 }
        requires done { self.old.handed ≡ self.old.count }
        ensures { self.new ≡ begun self.old first count }
    {
        self.first = first;
        self.count = count;
        self.handed = 0;
    }

    /// Takes the page of a number of the round, unless one was offered under it before. A page that isn't taken comes back, and nothing
    /// changes.
    pub fn offer(&mut self, n: u64, page: PageBuf) -> Result<(), Refused>
        ensures answer { result ≡ answer self.old n page }
        ensures after { self.new ≡ after_offer self.old n page }
    {
        if !self.has_number(n) {
            return Err(Refused::Beyond { page });
        }
        if self.was_offered(n) {
            return Err(Refused::Taken { page });
        }
        self.slots[(n - self.first) as usize] = Some(page);
        Ok(())
    }

    /// Tells whether the round has a number.
    fn has_number(&self, n: u64) -> bool
        ensures { result ≡ has_number self.now n }
    {
        self.first <= n && n < self.first + self.count
    }

    /// Tells whether a page was offered under a number of the round.
    fn was_offered(&self, n: u64) -> bool
        requires { IsTrue (has_number self.now n) }
        ensures { result ≡ was_offered self.now n }
    {
        n < self.first + self.handed || self.slots[(n - self.first) as usize].is_some()
    }

    /// Hands out the page of the least number that wasn't handed out. Returns None if that page wasn't offered yet, or none is left.
    pub fn next_page(&mut self) -> Option<Numbered>
        ensures page { result ≡ next self.old }
        ensures after { self.new ≡ after_next self.old }
    {
        if self.handed == self.count {
            return None;
        }
        let page = self.slots[self.handed as usize].take()?;
        let n = self.first + self.handed;
        self.handed += 1;
        Some(Numbered { n, page })
    }

    /// Returns `Ok` if all pages of the round were handed out, and otherwise the least number whose page wasn't.
    pub fn finish(&self) -> Result<(), Missing>
        ensures { result ≡ finished self.now }
    {
        if self.handed == self.count {
            return Ok(());
        }
        Err(Missing {
            first: self.first + self.handed,
        })
    }
}

/// Makes slots with no page.
fn empty_slots(alloc: Global, capacity: usize) -> Result<Vec<Option<PageBuf>>, Memory>
    ensures { IfOk result (λ slots. slots.items ≡ replicate capacity None) }
{
    let mut slots = Vec::with_capacity(alloc, capacity)?;
    for _ in 0..capacity {
        slots.push(None)?;
    }
    Ok(slots)
}
