//! Which actions watch an atom.
ghost use Rattle.std.specs.Prelude.{◌≡◌, ℕ, ◌+◌, ◌*◌, ◌<◌, ◌≤◌, ◌/◌, ◌==◌, ◌&&◌, ◌||◌, false, Some, IfOk, length, slice_get, nat_lt};
ghost use Rattle.hd_task.specs.declared.task.TheConstants.{MAX_ACTIONS, MAX_ATOMS};
ghost use Rattle.hd_task.specs.Conditions.{has_atom};
ghost use Rattle.hd_successors.specs.Watching.{IsWatchedBy, is_candidate};
ghost use Rattle.hd_successors.specs.Seeing.{is_always, watches_one, other_passes, is_in_byte};
ghost use Rattle.hd_successors.specs.Chains.{AreChains, BeginsNone, SkipsNone, last_with, last_in};
ghost use Rattle.hd_successors.specs.Marks.{words_for};
ghost use Rattle.hd_base.specs.Bits.{bit_in};

use crate::WatchedAtoms;
use crate::marks::{first_bit, no_marks, set_mark};
use crate::watching::watched_of;
use hd_base::{NoMemory, Sequence};
use hd_pack::Packed;
use hd_task::{Action, Reads};
use std::alloc::Global;

/// What each action watches, and which actions watch an atom first.
#[derive(Debug, Drop)]
pub(crate) struct Watches {
    /// By action.
    pub(crate) watched: Sequence<WatchedAtoms>,
    /// By atom: one more than the last action that watches it first, or 0.
    last: Sequence<u32>,
    /// By action: one more than the last one before it that watches the same atom first, or 0.
    before: Sequence<u32>,
    /// By eight atoms: whether an action watches one of them first.
    headed: Sequence<bool>,
    // The chains are of all actions.
    ghost chained: { AreChains watched last before (length watched) },
    // Where eight atoms are passed over, none of them has a chain.
    ghost skips: { SkipsNone last headed },
    // There are no more than a task may have.
    ghost few_atoms: { length last ≤ MAX_ATOMS },
    ghost few_actions: { length watched ≤ MAX_ACTIONS },
}

/// Puts an action at the end of the chain of what it watches first, and gives what stands before
/// it.
fn link(last: &mut [u32], watch: WatchedAtoms, action: u32) -> u32
    requires { action < MAX_ACTIONS }
    ensures last { last.new ≡ last_with last.old watch action }
    ensures before { result ≡ last_in last.old watch }
{
    let WatchedAtoms::Atoms(atom, _) = watch else {
        return 0;
    };
    let atom = atom as usize;
    if atom >= last.len() {
        return 0;
    }
    let before = last[atom];
    last[atom] = action + 1;
    before
}

/// Returns the chains of all actions: by atom where each begins, and by action what stands before
/// it.
fn chains_of(
    alloc: Global,
    watched: &[WatchedAtoms],
    atoms: usize,
) -> Result<(Vec<u32>, Vec<u32>), NoMemory>
    requires { length watched.now ≤ MAX_ACTIONS }
    ensures chains { IfOk result (λ r. AreChains watched.now r.0.items r.1.items
        (length watched.now)) }
    ensures atoms { IfOk result (λ r. length r.0.items ≡ atoms) }
{
    let mut last = vec![in alloc; 0; atoms]?;
    let mut before = Vec::with_capacity(alloc, watched.len())?;
    for action in 0..watched.len() {
        before.push(link(last.as_mut_slice(), watched[action], action as u32))?;
    }
    Ok((last, before))
}

/// Reports whether one of the eight atoms from `first` on has a chain.
fn has_chain(last: &[u32], first: usize) -> bool
    ensures { result ≡ false → BeginsNone last.now first }
{
    let end = last.len().min(first.saturating_add(8));
    for atom in first..end {
        if last[atom] > 0 {
            return true;
        }
    }
    false
}

/// Returns, by eight atoms, whether one of them has a chain.
///
/// # Errors
/// - `NoMemory`: there is no room for the answers.
fn headed_of(alloc: Global, last: &[u32]) -> Result<Vec<bool>, NoMemory>
    requires { length last.now ≤ MAX_ATOMS }
    ensures { IfOk result (λ v. SkipsNone last.now v.items) }
{
    let count = last.len().div_ceil(8);
    let mut headed = Vec::with_capacity(alloc, count)?;
    for place in 0..count {
        headed.push(has_chain(last, 8 * place))?;
    }
    Ok(headed)
}

/// Marks an action if it watches nothing.
fn mark_if_always(watch: WatchedAtoms, action: usize, marks: &mut [u64])
    requires { action / 64 < length marks.old }
    ensures { (i : ℕ) → bit_in marks.new i
        ≡ (((i == action) && is_always (Some watch)) || bit_in marks.old i) }
{
    if let WatchedAtoms::Always = watch {
        set_mark(marks, action);
    }
}

/// Marks the actions that watch nothing, if there are no marks yet.
fn mark_always(watched: &[WatchedAtoms], marks: &mut [u64])
    requires room { length watched.now ≤ 64 * length marks.old }
    requires none { (i : ℕ) → bit_in marks.old i ≡ false }
    ensures { (i : ℕ) → bit_in marks.new i ≡ is_always (slice_get watched.now i) }
{
    for action in 0..watched.len() {
        mark_if_always(watched[action], action, marks);
    }
}

/// Reports whether the other atom that is watched is true in a state.
fn sees_other(state: &Packed, watch: WatchedAtoms) -> bool
    ensures { result ≡ other_passes (has_atom state.now) (Some watch) }
{
    match watch {
        WatchedAtoms::Always => true,
        WatchedAtoms::Atoms(_, other) => state.has_atom(other),
    }
}

/// Marks an action if the other atom that it watches is true in a state.
fn mark_if_seen(state: &Packed, watch: WatchedAtoms, action: usize, marks: &mut [u64])
    requires { action / 64 < length marks.old }
    ensures { (i : ℕ) → bit_in marks.new i
        ≡ (((i == action) && other_passes (has_atom state.now) (Some watch))
        || bit_in marks.old i) }
{
    if sees_other(state, watch) {
        set_mark(marks, action);
    }
}

impl Watches {
    /// Returns what each of these actions watches, of a task of so many atoms, which starts with
    /// these.
    ///
    /// # Errors
    /// - `NoMemory`: there is no room for a number an atom, four an action, and a byte for eight
    ///   atoms.
    pub(crate) fn of(
        alloc: Global,
        actions: &[Action],
        initial: &[bool],
        atoms: usize,
    ) -> Result<Watches, NoMemory>
        requires few_atoms { atoms ≤ MAX_ATOMS }
        requires few_actions { length actions.now ≤ MAX_ACTIONS }
        ensures watched { IfOk result (λ w. IsWatchedBy actions.now w.watched) }
        ensures atoms { IfOk result (λ w. length w.last ≡ atoms) }
    {
        let watched = watched_of(alloc, actions, initial)?;
        let (last, before) = match chains_of(alloc, watched.as_slice(), atoms) {
            Ok(chains) => chains,
            Err(error) => {
                drop(watched);
                return Err(error);
            }
        };
        match headed_of(alloc, last.as_slice()) {
            Ok(headed) => Ok(Watches {
                watched,
                last: Sequence::from_vec(last),
                before: Sequence::from_vec(before),
                headed: Sequence::from_vec(headed),
            }),
            Err(error) => {
                drop(watched);
                Err(error)
            }
        }
    }

    /// Marks of the actions that watch nothing.
    pub(crate) fn always(&self, alloc: Global) -> Result<Vec<u64>, NoMemory>
        ensures marks { IfOk result (λ v. (i : ℕ) → bit_in v.items i
            ≡ is_always (slice_get self.now.watched i)) }
        ensures room { IfOk result (λ v. length v.items ≡ words_for (length self.now.watched)) }
    {
        let mut marks = no_marks(alloc, self.watched.len())?;
        mark_always(self.watched.as_slice(), marks.as_mut_slice());
        Ok(marks)
    }

    /// Marks the actions that watch an atom first, and another that is true in a state.
    fn mark_watchers(&self, atom: usize, state: &Packed, marks: &mut [u64])
        requires { length self.now.watched ≤ 64 * length marks.old }
        ensures { (i : ℕ) → bit_in marks.new i
            ≡ ((watches_one (λ a. (a == atom) && nat_lt a (length self.now.last))
            (slice_get self.now.watched i)
            && other_passes (has_atom state.now) (slice_get self.now.watched i))
            || bit_in marks.old i) }
    {
        let Some(last) = self.last.as_slice().get(atom) else {
            return;
        };
        let watched = self.watched.as_slice();
        let before = self.before.as_slice();
        let mut left = *last as usize;
        while left > 0 {
            mark_if_seen(state, watched[left - 1], left - 1, marks);
            left = before[left - 1] as usize;
        }
    }

    /// Marks the actions that watch an atom first which a byte has, and another that is true in a
    /// state; the byte's atoms are those from `base` on.
    fn mark_byte(&self, byte: u8, base: usize, state: &Packed, marks: &mut [u64])
        requires room { length self.now.watched ≤ 64 * length marks.old }
        requires near { base ≤ MAX_ATOMS }
        ensures { (i : ℕ) → bit_in marks.new i
            ≡ ((watches_one (λ a. nat_lt a (length self.now.last) && is_in_byte byte base a)
            (slice_get self.now.watched i)
            && other_passes (has_atom state.now) (slice_get self.now.watched i))
            || bit_in marks.old i) }
    {
        let mut from = 0;
        while let Some(bit) = first_bit(byte, from) {
            self.mark_watchers(base + bit, state, marks);
            from = bit + 1;
        }
    }

    /// Reports whether an action may watch one of these eight atoms first.
    fn is_headed(&self, place: usize) -> bool
        ensures { result ≡ false → BeginsNone self.now.last (8 * place) }
    {
        let headed = self.headed.as_slice();
        if place >= headed.len() {
            return true;
        }
        headed[place]
    }

    /// Marks the actions that [`Watches::mark_byte`] marks for the byte at `place`. It passes over
    /// eight atoms that no action watches first.
    fn mark_place(&self, byte: u8, place: usize, state: &Packed, marks: &mut [u64])
        requires room { length self.now.watched ≤ 64 * length marks.old }
        requires near { 8 * place ≤ MAX_ATOMS }
        ensures { (i : ℕ) → bit_in marks.new i
            ≡ ((watches_one (λ a. nat_lt a (length self.now.last) && is_in_byte byte (8 * place) a)
            (slice_get self.now.watched i)
            && other_passes (has_atom state.now) (slice_get self.now.watched i))
            || bit_in marks.old i) }
    {
        if !self.is_headed(place) {
            return;
        }
        self.mark_byte(byte, 8 * place, state, marks);
    }

    /// Marks the actions that watch atoms which are true in a state.
    fn mark_seen(&self, state: &Packed, marks: &mut [u64])
        requires room { length self.now.watched ≤ 64 * length marks.old }
        requires of_task { length state.now.atoms ≡ length self.now.last }
        ensures { (i : ℕ) → bit_in marks.new i
            ≡ ((watches_one (has_atom state.now) (slice_get self.now.watched i)
            && other_passes (has_atom state.now) (slice_get self.now.watched i))
            || bit_in marks.old i) }
    {
        let bytes = state.bytes();
        for place in 0..self.last.len().div_ceil(8) {
            self.mark_place(bytes[place], place, state, marks);
        }
    }

    /// Marks the candidates at a state, and no other action, where the marks of the actions that
    /// watch nothing are known.
    pub(crate) fn mark_candidates(&self, always: &[u64], state: &Packed, marks: &mut [u64])
        requires always { (i : ℕ) → bit_in always.now i
            ≡ is_always (slice_get self.now.watched i) }
        requires room { length self.now.watched ≤ 64 * length marks.old }
        requires alike { length always.now ≡ length marks.old }
        requires of_task { length state.now.atoms ≡ length self.now.last }
        ensures { (i : ℕ) → bit_in marks.new i ≡ is_candidate self.now.watched state.now i }
    {
        marks.copy_from_slice(always);
        self.mark_seen(state, marks);
    }
}
