//! The index of a task's actions.
ghost use Rattle.std.specs.Prelude.{◌≡◌, ℕ, false, [], IfOk, nat_le, find, length, slice_get};
ghost use Rattle.hd_task.specs.Plans.{IsStateOf};
ghost use Rattle.hd_successors.specs.Watching.{IsWatchedBy, candidates};
ghost use Rattle.hd_successors.specs.Seeing.{is_always};
ghost use Rattle.hd_successors.specs.Marks.{words_for};
ghost use Rattle.hd_base.specs.Bits.{bit_in};

use crate::WatchedAtoms;
use crate::marks::{first_mark_below, marks_below, no_marks};
use crate::watches::Watches;
use hd_base::NoMemory;
use hd_pack::Packed;
use hd_task::Task;
use std::alloc::Global;
use std::marker::Model;

/// Which actions of a task may apply at a state: an index, made once for a task, and marks, which
/// are kept from call to call.
#[derive(Debug, Drop)]
pub struct Successors<'t> {
    task: &'t Task,
    watches: Watches,
    /// Marks of the actions that are always candidates.
    always: Vec<u64>,
    marks: Vec<u64>,
    // Each action watches what its condition asks for.
    ghost is_watched: { IsWatchedBy task.now.actions watches.watched },
    // The chains begin at the task's atoms.
    ghost atoms: { length watches.last ≡ length task.now.atoms },
    // The actions that watch nothing are always candidates.
    ghost marks_always: { (i : ℕ) → bit_in always.items i
        ≡ is_always (slice_get watches.watched i) },
    ghost room_always: { length always.items ≡ words_for (length watches.watched) },
    ghost room: { length marks.items ≡ words_for (length watches.watched) },
}

impl<'t> Model for Successors<'t> {
    ghost use Rattle.std.specs.Prelude.{length};
    ghost use Rattle.std.specs.List.{filter};
    ghost use Rattle.hd_task.specs.Effects.{numbers_below};
    ghost use Rattle.hd_successors.specs.Successors.{SuccessorsView};
    ghost use Rattle.hd_base.specs.Bits.{bit_in};
    ghost use Rattle.hd_task.specs.contracts.task.Task as tasks;
    ghost use Rattle.std.specs.Coded.{codes};

    ghost Value = { SuccessorsView };

    ghost coded = { Prim.hlevel (codes, tasks.the_row.coded) };

    ghost view = { λ s. record {
      task = s.task.now;
      watched = s.watches.watched;
      marked = filter (bit_in s.marks.items) (numbers_below (length s.watches.watched));
      is_watched = s.is_watched;
    } };
}

impl<'t> Successors<'t> {
    /// Returns the index of a task, without marks.
    ///
    /// # Errors
    /// - `NoMemory`: there is no room for a number an atom, four numbers and two bits an action, and
    ///   a byte for eight atoms.
    pub fn new(alloc: Global, task: &'t Task) -> Result<Successors<'t>, NoMemory>
        ensures task { IfOk result (λ s. s.task ≡ task.now) }
        ensures marked { IfOk result (λ s. s.marked ≡ []) }
    {
        let initial = task.initial.atoms.as_slice();
        let watches = Watches::of(alloc, task.actions.as_slice(), initial, task.atoms.len())?;
        match marks_of(alloc, &watches) {
            Ok((always, marks)) => Ok(Successors {
                task,
                watches,
                always,
                marks,
            }),
            Err(error) => {
                drop(watches);
                Err(error)
            }
        }
    }

    /// Marks the candidates at a state, and no other action. It does not allocate.
    pub fn mark(&mut self, state: &Packed)
        requires { IsStateOf self.old.task state.now }
        ensures task { self.new.task ≡ self.old.task }
        ensures watched { self.new.watched ≡ self.old.watched }
        ensures marked { self.new.marked ≡ candidates self.old.watched state.now }
    {
        let marks = self.marks.as_mut_slice();
        self.watches
            .mark_candidates(self.always.as_slice(), state, marks);
    }

    /// Returns the first action that is marked, from this number on.
    pub fn next(&self, from: u32) -> Option<u32>
        ensures { result ≡ find (nat_le from) self.now.marked }
    {
        first_mark_below(self.marks.as_slice(), from, self.watches.watched.len())
    }

    /// Returns how many actions are marked.
    pub fn count(&self) -> usize
        ensures { result ≡ length self.now.marked }
    {
        marks_below(self.marks.as_slice(), self.watches.watched.len())
    }

    /// Returns what each action watches.
    pub fn watched(&self) -> &[WatchedAtoms]
        ensures watched { result.now ≡ self.now.watched }
        ensures asked_for { IsWatchedBy self.now.task.actions result.now }
    {
        self.watches.watched.as_slice()
    }
}

/// Marks of the actions that are always candidates, and no marks.
fn marks_of(alloc: Global, watches: &Watches) -> Result<(Vec<u64>, Vec<u64>), NoMemory>
    ensures always { IfOk result (λ r. (i : ℕ) → bit_in r.0.items i
        ≡ is_always (slice_get watches.now.watched i)) }
    ensures none { IfOk result (λ r. (i : ℕ) → bit_in r.1.items i ≡ false) }
    ensures room_always { IfOk result (λ r. length r.0.items
        ≡ words_for (length watches.now.watched)) }
    ensures room { IfOk result (λ r. length r.1.items
        ≡ words_for (length watches.now.watched)) }
{
    let always = watches.always(alloc)?;
    let marks = no_marks(alloc, watches.watched.len())?;
    Ok((always, marks))
}
