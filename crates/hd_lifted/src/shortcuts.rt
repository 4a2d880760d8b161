//! Shortcuts up the types: how deep each type stands, and a jump from it to a type further up.
//!
//! A jump leads to the parent, or to where the parent's jump and the next one lead, if these two
//! are equally long. So few steps and jumps, in number about the logarithm of the depth, lead from
//! a type to any type above it.
ghost use Rattle.std.specs.Prelude.{◌≡◌, ℕ, ◌<◌, ◌≤◌, List, OnOk, IfOk, length};
ghost use Rattle.hd_lifted.specs.Types.{entry_of, parent_of, IsSubtype, IsRooted};
ghost use Rattle.hd_lifted.specs.Jumps.{depth_in, depth_of, AreJumps, HasDepth, HasShortcuts, AreFilling, StaysRight};

use hd_base::NoMemory;
use std::alloc::Global;

/// How deep the types 1, 2, .. stand, and where their jumps lead.
#[derive(Debug, Drop)]
pub struct Shortcuts {
    /// For each type how many steps lead from it to `object`.
    pub depths: Vec<usize>,
    /// For each type its parent or a type further up.
    pub jumps: Vec<usize>,
}

impl Shortcuts {
    /// Returns the shortcuts up the types of these parents, in time linear in their number.
    ///
    /// # Errors
    ///
    /// - Lack of memory.
    pub fn new(alloc: Global, parents: &[usize]) -> Result<Shortcuts, NoMemory>
        requires { IsRooted parents.now }
        ensures { IfOk result (HasShortcuts parents.now) }
    {
        let mut depths = vec![in alloc; 0; parents.len()]?;
        let mut jumps = vec![in alloc; 0; parents.len()]?;
        for before in 0..parents.len() {
            fill_from(
                alloc,
                parents,
                depths.as_mut_slice(),
                jumps.as_mut_slice(),
                before + 1,
            )?;
        }
        Ok(Shortcuts { depths, jumps })
    }
}

/// Returns what a list with an entry for each of the types 1, 2, .. has for a type, or 0.
pub fn entry_of(entries: &[usize], kind: usize) -> usize
    ensures { result ≡ entry_of entries.now kind }
{
    if kind > 0 && kind <= entries.len() {
        entries[kind - 1]
    } else {
        0
    }
}

/// Returns the depth of a type: 0 for `object`, and 1 for a number beyond the list.
pub fn depth_of(depths: &[usize], kind: usize) -> usize
    ensures { result ≡ depth_of depths.now kind }
{
    if kind == 0 {
        0
    } else if kind <= depths.len() {
        depths[kind - 1]
    } else {
        1
    }
}

/// Fills in the depths and jumps of a type and of those above it. A listed type has the depth 0
/// until then.
fn fill_from(
    alloc: Global,
    parents: &[usize],
    depths: &mut [usize],
    jumps: &mut [usize],
    start: usize,
) -> Result<(), NoMemory>
    requires rooted { IsRooted parents.now }
    requires before { AreFilling parents.now depths.old jumps.old }
    ensures after { OnOk result (AreFilling parents.now depths.new jumps.new) }
    ensures filled { OnOk result (HasDepth parents.now depths.new start) }
    ensures kept { OnOk result (StaysRight parents.now depths.old depths.new) }
{
    let mut waiting = Vec::new(alloc);
    let mut kind = start;
    while kind != 0 && depth_of(depths, kind) == 0 {
        waiting.push(kind)?;
        kind = entry_of(parents, kind);
    }
    // A type's depth and jump come from those of its parent, so the highest is filled in first.
    while let Some(lower) = waiting.pop() {
        fill(parents, depths, jumps, lower);
    }
    Ok(())
}

/// Fills in the depth and the jump of a type whose parent has them.
fn fill(parents: &[usize], depths: &mut [usize], jumps: &mut [usize], kind: usize)
    requires rooted { IsRooted parents.now }
    requires listed { (0 < kind) × (kind ≤ length parents.now) }
    requires parent { HasDepth parents.now depths.old (parent_of parents.now kind) }
    requires before { AreFilling parents.now depths.old jumps.old }
    ensures after { AreFilling parents.now depths.new jumps.new }
    ensures filled { depth_of depths.new kind ≡ depth_in parents.now kind }
    ensures kept { StaysRight parents.now depths.old depths.new }
{
    let parent = entry_of(parents, kind);
    let jump = jump_over(depths, jumps, parent);
    depths[kind - 1] = depth_of(depths, parent) + 1;
    jumps[kind - 1] = jump;
}

/// Returns where the jump from a child of `parent` leads: over the next two jumps, if these are
/// equally long, else to `parent`.
fn jump_over(depths: &[usize], jumps: &[usize], parent: usize) -> usize
    ensures { (parents : List ℕ) → AreJumps parents jumps.now → IsSubtype parents parent result }
{
    let near = entry_of(jumps, parent);
    let far = entry_of(jumps, near);
    let depth = depth_of(depths, near);
    if depth_of(depths, parent).abs_diff(depth) == depth.abs_diff(depth_of(depths, far)) {
        far
    } else {
        parent
    }
}
