//! The hierarchy of types: which types stand below which.
//!
//! Type 0 is `object`. Each other type has a number from 1 on, and one parent.
ghost use Rattle.std.specs.Prelude.{◌≡◌, ◌≢◌, ℕ, ◌+◌, ◌<◌, ◌≤◌, ◌↔◌, IsTrue, IfOk, IfErr, IfSome, MatchOption, None, length, replicate, min};
ghost use Rattle.hd_lifted.specs.Types.{IsSubtype, IsOnCycle, IsAcyclic, IsRooted, is_subtype};
ghost use Rattle.hd_lifted.specs.Walks.{stamp_of, OnlyStamps, AreVisited, StaysRootedBy, IsUnvisited, IsRootedUnless};
ghost use Rattle.hd_lifted.specs.Jumps.{HasShortcuts};

use crate::shortcuts::{Shortcuts, depth_of, entry_of};
use hd_base::NoMemory;
use std::alloc::Global;
use std::marker::Model;

/// The parents of the types 1, 2, .., of which none lies on a cycle. Contracts see their list.
///
/// A number beyond the list is a type whose parent is `object`, which is 0.
#[derive(Debug, Drop)]
pub struct Hierarchy {
    parents: Vec<usize>,
    shortcuts: Shortcuts,
}

impl Model for Hierarchy {
    ghost use Rattle.std.specs.Prelude.{List, ℕ};
    ghost use Rattle.hd_lifted.specs.Types.{IsRooted};
    ghost use Rattle.hd_lifted.specs.Jumps.{HasShortcuts};

    ghost Value = { List ℕ };

    ghost view = { λ h. h.parents.items };

    ghost invariant = { λ h. IsRooted h.parents.items × HasShortcuts h.parents.items h.shortcuts };
}

impl Hierarchy {
    /// Returns the hierarchy of these parents, or a type that lies on a cycle, in time linear in
    /// the number of parents. Of several such types the first listed one is reported, which is
    /// tested and not proved.
    ///
    /// # Errors
    ///
    /// - Lack of memory.
    pub fn new(alloc: Global, parents: Vec<usize>) -> Result<Result<Hierarchy, usize>, NoMemory>
        ensures made { IfOk result (λ answer. IfOk answer (λ types. types ≡ parents.items)) }
        ensures acyclic { IfOk result (λ answer. IfOk answer (λ _. IsAcyclic parents.items)) }
        ensures on_cycle { IfOk result (λ answer. IfErr answer (IsOnCycle parents.items)) }
    {
        match least_on_cycles(alloc, parents.as_slice())? {
            Some(on_cycle) => Ok(Err(on_cycle)),
            None => {
                let shortcuts = Shortcuts::new(alloc, parents.as_slice())?;
                Ok(Ok(Hierarchy { parents, shortcuts }))
            }
        }
    }

    /// Returns the parents of the types 1, 2, ..
    pub fn parents(&self) -> &[usize]
        ensures value { result.now ≡ self.now }

        // Steps lead from each type to `object`, so that none lies on a cycle.
        ensures rooted { IsRooted self.now }
    {
        &self.parents
    }

    /// Reports whether each object of the type `lower` is one of the type `upper`, in time
    /// logarithmic in the depth of `lower`.
    pub fn is_subtype(&self, lower: usize, upper: usize) -> bool
        ensures yes { IsTrue result → IsSubtype self.now lower upper }
        ensures no { IsSubtype self.now lower upper → IsTrue result }
        ensures test { result ≡ is_subtype self.now lower upper }
    {
        leads_to(self.parents.as_slice(), &self.shortcuts, lower, upper)
    }
}

/// Reports whether steps from a type to its parent lead from `lower` to `upper`. A jump is taken
/// where it leads no higher than `upper`.
fn leads_to(parents: &[usize], shortcuts: &Shortcuts, lower: usize, upper: usize) -> bool
    requires rooted { IsRooted parents.now }
    requires shortcuts { HasShortcuts parents.now shortcuts.now }
    ensures yes { IsTrue result → IsSubtype parents.now lower upper }
    ensures no { IsSubtype parents.now lower upper → IsTrue result }
{
    let depths = shortcuts.depths.as_slice();
    let jumps = shortcuts.jumps.as_slice();
    let wanted = depth_of(depths, upper);
    let mut kind = lower;
    while depth_of(depths, kind) > wanted {
        let far = entry_of(jumps, kind);
        kind = if depth_of(depths, far) >= wanted {
            far
        } else {
            entry_of(parents, kind)
        };
    }
    kind == upper
}

/// Returns the least type that lies on a cycle, if there is one.
fn least_on_cycles(alloc: Global, parents: &[usize]) -> Result<Option<usize>, NoMemory>
    ensures { IfOk result (IsRootedUnless parents.now) }
{
    let mut stamps = vec![in alloc; 0; parents.len()]?;
    Ok(walk_all(parents, stamps.as_mut_slice()))
}

/// Walks up from each type, and reports the least type on a cycle, if there is one. At first there
/// are no stamps.
fn walk_all(parents: &[usize], stamps: &mut [usize]) -> Option<usize>
    requires { stamps.old ≡ replicate (length parents.now) 0 }
    ensures { IsRootedUnless parents.now result }
{
    let mut found = None;
    for before in 0..parents.len() {
        found = visit(parents, stamps, before + 1, found);
    }
    found
}

/// Walks up from a type. Where that closes a cycle, reports the lesser of the type found so far and
/// the least of the cycle.
fn visit(
    parents: &[usize],
    stamps: &mut [usize],
    start: usize,
    found: Option<usize>,
) -> Option<usize>
    requires start { (0 < start) × (start ≤ length parents.now) }
    requires before { AreVisited parents.now stamps.old start found }
    ensures { AreVisited parents.now stamps.new (start + 1) result }
{
    match walk(parents, stamps, start) {
        Some(on_cycle) => Some(lesser(found, least_of_cycle(parents, on_cycle))),
        None => found,
    }
}

/// Walks up from a type, whose number is the walk's stamp, to `object` or to a type that was
/// visited. Where this walk itself visited it, it lies on a cycle and is the answer.
fn walk(parents: &[usize], stamps: &mut [usize], start: usize) -> Option<usize>
    requires start { 0 < start }
    requires len { length stamps.old ≡ length parents.now }
    requires new_stamp { (t : ℕ) → stamp_of stamps.old t < start }
    ensures stamps { OnlyStamps start stamps.old stamps.new }
    ensures visited { start ≤ length parents.now → stamp_of stamps.new start ≢ 0 }
    ensures ends { result ≡ None → StaysRootedBy parents.now stamps.old stamps.new }
    ensures closes { IfSome result (IsOnCycle parents.now) }
{
    let mut kind = start;
    while is_unvisited(stamps, kind) {
        stamps[kind - 1] = start;
        kind = entry_of(parents, kind);
    }
    if entry_of(stamps, kind) == start {
        Some(kind)
    } else {
        None
    }
}

/// Reports whether a type other than `object` stands in the list and no walk came to it.
fn is_unvisited(stamps: &[usize], kind: usize) -> bool
    ensures { IsTrue result ↔ IsUnvisited stamps.now kind }
{
    kind > 0 && kind <= stamps.len() && stamps[kind - 1] == 0
}

/// Returns the least type of the cycle on which `first` lies.
fn least_of_cycle(parents: &[usize], first: usize) -> usize
    requires { IsOnCycle parents.now first }
    ensures { IsOnCycle parents.now result }
{
    let mut least = first;
    let mut kind = entry_of(parents, first);
    // A cycle has no more types than there are.
    for _ in 0..parents.len() {
        if kind == first {
            break;
        }
        least = least.min(kind);
        kind = entry_of(parents, kind);
    }
    least
}

/// Returns the lesser of two types, of which the first may be missing.
fn lesser(found: Option<usize>, other: usize) -> usize
    ensures { MatchOption found (result ≡ other) (λ t. result ≡ min t other) }
{
    match found {
        Some(least) => least.min(other),
        None => other,
    }
}
