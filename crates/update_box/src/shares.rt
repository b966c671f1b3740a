//! The shares of a job's parts for a node, and their packages.

ghost use Rattle.std.specs.Prelude.{◌≡◌, ◌<◌, ◌≤◌, ◌+◌, ◌-◌, ◌*◌, ◌^◌, All, length, map, min, take};
ghost use Rattle.update_box.specs.Cuts.{cut_at, greatest, package_count};
ghost use Rattle.update_box.specs.Kept.{IsCut, IsPackage, kept_at, kept_share, packages_kept};
ghost use Rattle.update_box.specs.Packages.{most_bytes, share_room};

use crate::parts::{Content, Job};
use row_lines::KEY_LINE;
use schema_plan::Plan;

/// A node's share of a part: the entries from `first` up to `end` of a table's content.
#[derive(Clone, Copy)]
pub(crate) struct KeptShare {
    /// The place of the table.
    pub(crate) place: u32,
    /// The content of the table.
    pub(crate) content: Content,
    pub(crate) first: u64,
    pub(crate) end: u64,
    /// The number of packages of the share.
    pub(crate) packages: u64,
    /// Of a snapshot: an ordinal before which no row is alive.
    pub(crate) living: u64,
}

/// The shares of a job for a node.
#[derive(Drop)]
pub(crate) struct Shares {
    /// The shares, in order.
    pub(crate) kept: Vec<KeptShare>,
    /// The most entries of a package.
    pub(crate) size: u64,
    /// The number of packages of all shares.
    pub(crate) count: u64,
    /// The room that a package needs on a page, in bytes.
    pub(crate) room: usize,
}

/// The entries from position `first` up to position `end`.
#[derive(Clone, Copy)]
pub(crate) struct Entries {
    pub(crate) first: u64,
    pub(crate) end: u64,
}

/// Package number `number` of a share.
#[derive(Clone, Copy)]
struct Package {
    share: usize,
    number: u64,
}

/// Returns the share of a part for a job's node. `entries` is the number of entries of the whole part.
pub(crate) fn cut(job: &Job, place: u32, content: Content, entries: u64, living: u64) -> KeptShare
    requires entries { entries ≤ 2 ^ 40 }
    requires some_entry { 1 ≤ job.now.package }
    requires package_limit { job.now.package ≤ 1000000 }
    requires node { job.now.node < job.now.nodes }
    requires node_limit { job.now.nodes ≤ 1024 }
    ensures place { result.place ≡ place }
    ensures content { result.content ≡ content }
    ensures living { result.living ≡ living }
    ensures first { result.first ≡ cut_at entries job.now.node job.now.nodes }
    ensures end { result.end ≡ cut_at entries (job.now.node + 1) job.now.nodes }
    ensures ordered { result.first ≤ result.end }
    ensures within { result.end ≤ entries }
    ensures packages { result.packages ≡ package_count job.now.package (result.end - result.first) }
{
    let first = entries * job.node / job.nodes;
    let end = entries * (job.node + 1) / job.nodes;
    let packages = (end - first + (job.package - 1)) / job.package;
    KeptShare {
        place,
        content,
        first,
        end,
        packages,
        living,
    }
}

/// Counts the packages of some shares.
fn count_packages(shares: &[KeptShare]) -> u64
    requires few { length shares.now ≤ 192 }
    requires each { All (λ kept. kept.packages ≤ 2 ^ 40) shares.now }
    ensures count { result ≡ packages_kept shares.now }
    ensures most { result ≤ 2 ^ 60 }
{
    let mut count = 0;
    for share in shares {
        count += share.packages;
    }
    count
}

/// Returns the most bytes that an entry of a share gives.
fn most_bytes(plan: &Plan, share: &KeptShare) -> u64
    requires { share.now.place < length plan.now.schema.tables }
    ensures most { result ≡ most_bytes plan.now share.now.place share.now.content }
    ensures few { result ≤ 65536 }
{
    let _limits = plan.schema(); // no line is longer than 65,536 bytes
    match share.content {
        Content::Deleted => KEY_LINE as u64,
        _ => plan.max_line(share.place),
    }
}

/// Returns the room, in bytes, that a package of a share needs on a page.
fn share_room(plan: &Plan, size: u64, share: &KeptShare) -> u64
    requires size { size ≤ 1000000 }
    requires place { share.now.place < length plan.now.schema.tables }
    requires ordered { share.now.first ≤ share.now.end }
    ensures room { result ≡ share_room plan.now size (kept_share share.now) }
    ensures few { result ≤ 65536000000 }
{
    size.min(share.end - share.first) * most_bytes(plan, share)
}

/// Returns the greatest room, in bytes, that a package of some shares needs on a page.
fn room_for(plan: &Plan, size: u64, shares: &[KeptShare]) -> usize
    requires size { size ≤ 1000000 }
    requires places { All (λ kept. kept.place < length plan.now.schema.tables) shares.now }
    requires ordered { All (λ kept. kept.first ≤ kept.end) shares.now }
    ensures { result ≡ greatest (share_room plan.now size) (map kept_share shares.now) }
{
    let mut room = 0;
    for share in shares {
        let wanted = share_room(plan, size, share);
        if wanted > room {
            room = wanted;
        }
    }
    room as usize
}

/// Finds package `n`. Packages count from 0, through all shares one after the other.
fn find(shares: &[KeptShare], n: u64) -> Package
    requires { n < packages_kept shares.now }
    ensures share { result.share < length shares.now }
    ensures number { result.number < (kept_at shares.now result.share).packages }
    ensures before { n ≡ packages_kept (take result.share shares.now) + result.number }
{
    let mut number = n;
    for (share, kept) in shares.iter().enumerate() {
        if number < kept.packages {
            return Package { share, number };
        }
        number -= kept.packages;
    }
    Package {
        share: shares.len(),
        number,
    }
}

/// Returns the entries of a share's package by its number. Each package has `size` entries. The last one has those that are left.
fn entries_of(share: &KeptShare, size: u64, number: u64) -> Entries
    requires some_entry { 1 ≤ size }
    requires limit { size ≤ 2 ^ 40 }
    requires cut { IsCut size share.now }
    requires number { number < share.now.packages }
    ensures first { result.first ≡ share.now.first + number * size }
    ensures end { result.end ≡ min share.now.end (share.now.first + (number + 1) * size) }
    ensures ordered { result.first ≤ result.end }
{
    let first = share.first + number * size;
    let end = share.end.min(first + size);
    Entries { first, end }
}

impl Shares {
    /// Returns shares of a plan's tables, cut into packages of at most `size` entries.
    pub(crate) fn of(plan: &Plan, size: u64, kept: Vec<KeptShare>) -> Shares
        requires size { size ≤ 1000000 }
        requires few { length kept.items ≤ 192 }
        requires places { All (λ kept. kept.place < length plan.now.schema.tables) kept.items }
        requires ordered { All (λ kept. kept.first ≤ kept.end) kept.items }
        requires packages { All (λ kept. kept.packages ≤ 2 ^ 40) kept.items }
        ensures kept { result.kept.items ≡ kept.items }
        ensures size { result.size ≡ size }
        ensures count { result.count ≡ packages_kept kept.items }
        ensures most { result.count ≤ 2 ^ 60 }
        ensures room { result.room ≡ greatest (share_room plan.now size) (map kept_share kept.items) }
    {
        let count = count_packages(kept.as_slice());
        let room = room_for(plan, size, kept.as_slice());
        Shares {
            kept,
            size,
            count,
            room,
        }
    }

    /// Returns the share of package `n`, and the package's entries.
    pub(crate) fn package(&self, n: u64) -> (&KeptShare, Entries)
        requires number { n < packages_kept self.now.kept.items }
        requires some_entry { 1 ≤ self.now.size }
        requires limit { self.now.size ≤ 2 ^ 40 }
        requires each { All (IsCut self.now.size) self.now.kept.items }
        ensures { IsPackage self.now n result.0.now result.1 }
    {
        let Package { share, number } = find(self.kept.as_slice(), n);
        let share = &self.kept[share];
        (share, entries_of(share, self.size, number))
    }
}
