//! Arrivals in the order in which their nodes are to be expanded.
ghost use Rattle.std.specs.Prelude.{◌≡◌, ◌<◌, ◌≤◌, ℕ, Option, Some, None, true, [], ◌⊎◌, length, slice_get, IfSome, IfNone, OnOk, OnErr};
ghost use Rattle.std.specs.BTreeSet.{contains, IsLowerBound};
ghost use Rattle.hd_open.specs.Marks.{slot_bit};
ghost use Rattle.hd_open.specs.Queue.{Has, bucket, entry_cmp, AreCleared, IsCleared, IsFirstWaiting, IsQueueOrderly, IsBelow};

use crate::arrivals::Arrivals;
use crate::marks::is_marked;
use hd_base::NoMemory;
use std::alloc::{AllocError, Global};
use std::collections::BTreeSet;

/// So many totals, from 0 on, have a bucket each.
pub(crate) const BUCKETS: u64 = 65_536;

/// Arrivals by their totals: small totals have a bucket each, greater ones are sorted, and those
/// without a total come last. An entry may be stale: its node may have left, and its slot is not
/// marked then.
#[derive(Drop)]
pub(crate) struct OpenQueue {
    pub(crate) alloc: Global,
    pub(crate) small: Vec<Arrivals>,
    /// No bucket before this one has an arrival.
    pub(crate) least: usize,
    pub(crate) large: BTreeSet<(u128, usize)>,
    pub(crate) dead: Arrivals,
}

/// Makes buckets up to that of a total.
fn cover(alloc: Global, small: &mut Vec<Arrivals>, total: usize) -> Result<(), NoMemory>
    requires bucket { total < BUCKETS }
    requires few { length small.old.items ≤ BUCKETS }
    ensures same { (t : ℕ) → bucket small.new.items t ≡ bucket small.old.items t }
    ensures few { length small.new.items ≤ BUCKETS }
    ensures room { OnOk result (total < length small.new.items) }
{
    while small.len() <= total {
        small.push(Arrivals::none(alloc))?;
    }
    Ok(())
}

/// Returns the first arrival whose slot is marked. Those before it are dropped.
fn first_waiting(arrivals: &mut Arrivals, words: &[u64]) -> Option<usize>
    ensures cleared { AreCleared words.now arrivals.old arrivals.new }
    ensures first { IfSome result (λ a. slice_get arrivals.new 0 ≡ Some a) }
    ensures marked { IfSome result (λ a. slot_bit words.now a ≡ 1) }
    ensures none { IfNone result (arrivals.new ≡ []) }
{
    while let Some(arrival) = arrivals.first() {
        if is_marked(words, arrival) {
            return Some(arrival);
        }
        arrivals.drop_first();
    }
    None
}

/// Returns the first total from `from` on whose bucket has a marked arrival, and the first such.
/// An arrival is marked if its slot is. Those before it are dropped.
fn first_small(small: &mut Vec<Arrivals>, from: usize, words: &[u64]) -> Option<(usize, usize)>
    ensures cleared { (t : ℕ) → AreCleared words.now (bucket small.old.items t)
        (bucket small.new.items t) }
    ensures len { length small.new.items ≡ length small.old.items }
    ensures first { IfSome result (λ r. slice_get (bucket small.new.items r.0) 0 ≡ Some r.1) }
    ensures marked { IfSome result (λ r. slot_bit words.now r.1 ≡ 1) }
    ensures empty { IfSome result (λ r. (t : ℕ) → from ≤ t → t < r.0
        → bucket small.new.items t ≡ []) }
    ensures none { IfNone result ((t : ℕ) → from ≤ t → bucket small.new.items t ≡ []) }
{
    for total in from..small.len() {
        if let Some(arrival) = first_waiting(&mut small[total], words) {
            return Some((total, arrival));
        }
    }
    None
}

/// Returns the first entry of those that are sorted.
fn first_of(large: &BTreeSet<(u128, usize)>) -> Option<(u128, usize)>
    ensures first { IfSome result (λ r. slice_get large.now.keys 0 ≡ Some r) }
    ensures member { IfSome result (λ r. contains entry_cmp large.now r ≡ true) }
    ensures least { IfSome result (λ r. IsLowerBound entry_cmp large.now r) }
    ensures none { IfNone result (large.now.keys ≡ []) }
{
    match large.first() {
        Some(first) => Some(*first),
        None => None,
    }
}

/// Returns the first entry of those that are sorted whose slot is marked. Those before it are
/// dropped.
fn first_large(large: &mut BTreeSet<(u128, usize)>, words: &[u64]) -> Option<(u128, usize)>
    ensures stays { (t k : ℕ) → slot_bit words.now k ≡ 1
        → contains entry_cmp large.old (t, k) ≡ true
        → contains entry_cmp large.new (t, k) ≡ true }
    ensures only { (t k : ℕ) → contains entry_cmp large.new (t, k) ≡ true
        → contains entry_cmp large.old (t, k) ≡ true }
    ensures member { IfSome result (λ r. contains entry_cmp large.new r ≡ true) }
    ensures marked { IfSome result (λ r. slot_bit words.now r.1 ≡ 1) }
    ensures least { IfSome result (λ r. IsLowerBound entry_cmp large.new r) }
    ensures none { IfNone result (large.new.keys ≡ []) }
{
    while let Some((total, arrival)) = first_of(large) {
        if is_marked(words, arrival) {
            return Some((total, arrival));
        }
        let _first = large.pop_first();
    }
    None
}

impl OpenQueue {
    /// Returns no arrivals.
    pub(crate) fn empty(alloc: Global) -> OpenQueue
        ensures orderly { IsQueueOrderly result }
        ensures none { (g : Option ℕ) (k : ℕ) → Has result g k → ⊥ }
    {
        OpenQueue {
            alloc,
            small: Vec::new(alloc),
            least: 0,
            large: BTreeSet::new(alloc),
            dead: Arrivals::none(alloc),
        }
    }

    /// Adds one arrival more, of a total that has a bucket.
    #[inline(always)]
    fn add_to_bucket(&mut self, total: usize, arrival: u32) -> Result<(), NoMemory>
        requires bucket { total < BUCKETS }
        requires orderly { IsQueueOrderly self.old }
        requires latest { IsBelow self.old arrival }
        ensures orderly { IsQueueOrderly self.new }
        ensures added { OnOk result (Has self.new (Some total) arrival) }
        ensures stays { (g : Option ℕ) (k : ℕ) → Has self.old g k → Has self.new g k }
        ensures only { (g : Option ℕ) (k : ℕ) → Has self.new g k
            → Has self.old g k ⊎ ((Some total ≡ g) × (arrival ≡ k)) }
        ensures err { OnErr result ((g : Option ℕ) (k : ℕ) → Has self.new g k → Has self.old g k) }
    {
        cover(self.alloc, &mut self.small, total)?;
        self.small[total].push(arrival)?;
        if total < self.least {
            self.least = total;
        }
        Ok(())
    }

    /// Adds one arrival more, of a total that has no bucket.
    fn add_sorted(&mut self, total: u128, arrival: usize) -> Result<(), NoMemory>
        requires no_bucket { BUCKETS ≤ total }
        requires orderly { IsQueueOrderly self.old }
        ensures orderly { IsQueueOrderly self.new }
        ensures added { OnOk result (Has self.new (Some total) arrival) }
        ensures stays { (g : Option ℕ) (k : ℕ) → Has self.old g k → Has self.new g k }
        ensures only { (g : Option ℕ) (k : ℕ) → Has self.new g k
            → Has self.old g k ⊎ ((Some total ≡ g) × (arrival ≡ k)) }
        ensures err { OnErr result ((g : Option ℕ) (k : ℕ) → Has self.new g k → Has self.old g k) }
    {
        self.large.insert((total, arrival))?;
        Ok(())
    }

    /// Adds one arrival more, of no total.
    fn add_dead(&mut self, arrival: u32) -> Result<(), NoMemory>
        requires orderly { IsQueueOrderly self.old }
        requires latest { IsBelow self.old arrival }
        ensures orderly { IsQueueOrderly self.new }
        ensures added { OnOk result (Has self.new None arrival) }
        ensures stays { (g : Option ℕ) (k : ℕ) → Has self.old g k → Has self.new g k }
        ensures only { (g : Option ℕ) (k : ℕ) → Has self.new g k
            → Has self.old g k ⊎ ((None ≡ g) × (arrival ≡ k)) }
        ensures err { OnErr result ((g : Option ℕ) (k : ℕ) → Has self.new g k → Has self.old g k) }
    {
        self.dead.push(arrival)?;
        Ok(())
    }

    /// One arrival more, which is less than none before it.
    ///
    /// # Errors
    /// - `NoMemory`: there is no room for it, or it is no number of 32 bits.
    // Each push goes through it, and mostly through `add_to_bucket`: as calls each would take some
    // ten instructions more.
    #[inline(always)]
    pub(crate) fn add(&mut self, total: Option<u128>, arrival: usize) -> Result<(), NoMemory>
        requires orderly { IsQueueOrderly self.old }
        requires latest { IsBelow self.old arrival }
        ensures orderly { IsQueueOrderly self.new }
        ensures added { OnOk result (Has self.new total arrival) }
        ensures stays { (g : Option ℕ) (k : ℕ) → Has self.old g k → Has self.new g k }
        ensures only { (g : Option ℕ) (k : ℕ) → Has self.new g k
            → Has self.old g k ⊎ ((total ≡ g) × (arrival ≡ k)) }
        ensures err { OnErr result ((g : Option ℕ) (k : ℕ) → Has self.new g k → Has self.old g k) }
    {
        if arrival > u32::MAX as usize {
            return Err(AllocError);
        }
        let short = arrival as u32;
        match total {
            Some(cost) => {
                if cost < u128::from(BUCKETS) {
                    self.add_to_bucket(cost as usize, short)
                } else {
                    self.add_sorted(cost, arrival)
                }
            }
            None => self.add_dead(short),
        }
    }

    /// Returns the arrival of the first entry whose slot is marked. Those before it are dropped.
    pub(crate) fn first(&mut self, words: &[u64]) -> Option<usize>
        requires orderly { IsQueueOrderly self.old }
        ensures cleared { IsCleared words.now self.old self.new }
        ensures first { IfSome result (IsFirstWaiting words.now self.new) }
        ensures none { IfNone result ((g : Option ℕ) (k : ℕ) → Has self.new g k → ⊥) }
    {
        if let Some((total, arrival)) = first_small(&mut self.small, self.least, words) {
            self.least = total;
            return Some(arrival);
        }
        self.least = self.small.len();
        if let Some((_, arrival)) = first_large(&mut self.large, words) {
            return Some(arrival);
        }
        first_waiting(&mut self.dead, words)
    }
}
