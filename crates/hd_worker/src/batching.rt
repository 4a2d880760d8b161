//! Batches of outcomes, and their numbers.
ghost use Rattle.std.specs.Prelude.{◌≡◌, ◌≢◌, ◌+◌, ◌<◌, ◌≤◌, ◌^◌, ℕ, ◌++◌, [], ◌∷◌, take, drop, map, length, slice_index, vec_len, vec_capacity, IfOk, IfSome, IfNone, OnOk, OnErr};
ghost use Rattle.std.specs.List.{AllByRecursion};
ghost use Rattle.hd_node.specs.declared.batch.TheConstants.{MAX_OUTCOMES};
ghost use Rattle.hd_entries.specs.Settling.{IsOutcomeOfTask};
ghost use Rattle.hd_entries.specs.Growing.{successor_count};
ghost use Rattle.hd_entries.specs.Holding.{released_by};
ghost use Rattle.hd_turns.specs.Calls.{ranks, batch_of, after_batch, after_numbering, outcome_numbered, with_room_for};

use crate::Worker;
use crate::deque::reserve_more;
use hd_base::NoMemory;
use hd_closed::numbered;
use hd_node::{Batch, MAX_OUTCOMES, Outcome};
use std::alloc::Global;
use std::mem;

/// Adds one outcome more, if there is room for it.
pub(crate) fn push_outcome<'t>(outcomes: &mut Vec<Outcome<'t>>, outcome: Outcome<'t>)
    requires { vec_len outcomes.old < vec_capacity outcomes.old }
    ensures { outcomes.new.items ≡ outcomes.old.items ++ outcome.entry ∷ [] }
{
    match outcomes.push(outcome) {
        Ok(()) => {}
        Err(_) => unreachable!(),
    }
}

/// Returns how many successors outcomes have.
fn kids_of(outcomes: &[Outcome]) -> usize
    requires fits { successor_count outcomes.now < 2 ^ 64 }
    ensures { result ≡ successor_count outcomes.now }
{
    let mut count = 0usize;
    for outcome in outcomes {
        if let Outcome::Expanded(expansion) = outcome {
            count += expansion.children().len();
        }
    }
    count
}

/// Returns, for each of `outcomes`, how many expansions stand before it.
///
/// # Errors
/// - `NoMemory`: there is no room for the numbers.
fn ranks_of(alloc: Global, outcomes: &[Outcome]) -> Result<Vec<u64>, NoMemory>
    requires few { length outcomes.now ≤ MAX_OUTCOMES }
    ensures { IfOk result (λ v. v.items ≡ ranks 0 outcomes.now) }
{
    let mut ranks = Vec::with_capacity(alloc, outcomes.len())?;
    let mut before = 0u64;
    for outcome in outcomes {
        ranks.push(before)?;
        if let Outcome::Expanded(_) = outcome {
            before += 1;
        }
    }
    Ok(ranks)
}

/// Returns the first outcomes, so many of them, which leave the list. Where none is left, the list
/// has room for twice as many to come, so that it seldom grows.
///
/// # Errors
/// - `NoMemory`: there is no room for the others; the list is as it was.
fn split_first<'t>(
    alloc: Global,
    outcomes: &mut Vec<Outcome<'t>>,
    count: usize,
) -> Result<Vec<Outcome<'t>>, NoMemory>
    requires { count ≤ vec_len outcomes.old }
    ensures first { IfOk result (λ v. v.items ≡ take count outcomes.old.items) }
    ensures rest { OnOk result (outcomes.new.items ≡ drop count outcomes.old.items) }
    ensures err { OnErr result (outcomes.new.items ≡ outcomes.old.items) }
{
    let rest = if count == outcomes.len() {
        Vec::with_capacity(alloc, count.saturating_mul(2))?
    } else {
        outcomes.split_off(count)?
    };
    Ok(mem::replace(outcomes, rest))
}

/// Updates what `outcome` names as its expansion, if it is a duplicate, as [`numbered`] does.
fn number_one<'t>(outcome: &mut Outcome<'t>, first: u64, given: &[u64])
    requires { (k : ℕ) → first + slice_index given.now k < 2 ^ 64 }
    ensures { outcome.new ≡ outcome_numbered first given.now outcome.old }
{
    if let Outcome::Duplicate(_, by) = outcome {
        *by = numbered(first, given, *by);
    }
}

/// Updates what the duplicates of `outcomes` name as their expansions, as [`numbered`] does.
fn number_all<'t>(outcomes: &mut [Outcome<'t>], first: u64, given: &[u64])
    requires { (k : ℕ) → first + slice_index given.now k < 2 ^ 64 }
    ensures { outcomes.new ≡ map (outcome_numbered first given.now) outcomes.old }
{
    for outcome in outcomes.iter_mut() {
        number_one(outcome, first, given);
    }
}

impl<'t> Worker<'t> {
    /// Returns the batch of the first outcomes, at most [`MAX_OUTCOMES`]; none where there are no
    /// outcomes. It makes the room for what the batch releases, and for its numbers.
    ///
    /// # Errors
    /// - `NoMemory`: there is none; the worker is as it was.
    pub fn next_batch(&mut self) -> Result<Option<Batch<'t>>, NoMemory>
        requires numbered { self.old.given ≡ [] }
        ensures none { IfOk result (λ r. IfNone r (self.old.outcomes ≡ [])) }
        ensures same { IfOk result (λ r. IfNone r (self.new ≡ self.old)) }
        ensures batch { IfOk result (λ r. IfSome r (λ b. b.outcomes ≡ batch_of self.old)) }
        ensures given { IfOk result (λ r. IfSome r (λ _. self.new ≡ after_batch self.old)) }
        ensures numbers { IfOk result (λ r. IfSome r (λ _. self.new.given ≢ [])) }
        ensures room { IfOk result (λ r. IfSome r (λ b. (n : ℕ) →
            length (released_by n b.outcomes) ≤ self.new.room)) }
        ensures of_task { IfOk result (λ r. IfSome r (λ b.
            AllByRecursion (IsOutcomeOfTask self.old.task) b.outcomes)) }
        ensures err { OnErr result (self.new ≡ self.old) }
    {
        if self.outcomes.is_empty() {
            return Ok(None);
        }
        let count = self.outcomes.len().min(MAX_OUTCOMES);
        let first = &self.outcomes.as_slice()[..count];
        let given = ranks_of(self.alloc, first)?;
        let kids = kids_of(first);
        self.make_room(kids)?;
        match split_first(self.alloc, &mut self.outcomes, count) {
            Ok(outcomes) => {
                self.given = given;
                Ok(Some(Batch::of(outcomes)))
            }
            Err(error) => {
                self.frontier.give_up(kids);
                Err(error)
            }
        }
    }

    /// Makes room for so many parcels more, so that they may be released without memory.
    ///
    /// # Errors
    /// - `NoMemory`: there is none; the worker is as it was.
    pub fn make_room(&mut self, count: usize) -> Result<(), NoMemory>
        ensures ok { OnOk result (self.new ≡ with_room_for count self.old) }
        ensures err { OnErr result (self.new ≡ self.old) }
    {
        let beside = self.frontier.room() + if self.lent { 1 } else { 0 };
        reserve_more(&mut self.outbox, beside, count)?;
        self.frontier.reserve(count)
    }

    /// Numbers the batch that was given last: its expansions are the entries from `first` on.
    /// It does not allocate. A batch that was refused is numbered from a number on that no entry
    /// has.
    pub fn committed(&mut self, first: u64)
        requires given { self.old.given ≢ [] }
        requires fits { first + MAX_OUTCOMES ≤ 2 ^ 64 }
        ensures { self.new ≡ after_numbering first self.old }
    {
        let given = mem::replace(&mut self.given, Vec::new(self.alloc));
        self.frontier.number(first, given.as_slice());
        number_all(self.outcomes.as_mut_slice(), first, given.as_slice());
    }
}
