//! The calls that settle open nodes.
ghost use Rattle.std.specs.Prelude.{◌≡◌, ◌+◌, ◌-◌, ◌≤◌, ◌^◌, [], length, min, nat_lt, vec_len, IfOk, IfSome, IfNone, OnOk, OnErr};
ghost use Rattle.hd_hmax.specs.Rounds.{hmax};
ghost use Rattle.hd_node.specs.declared.batch.TheConstants.{MAX_OUTCOMES};
ghost use Rattle.hd_open.specs.Totals.{IsBest};
ghost use Rattle.hd_worker.specs.Held.{bytes_of, last_bytes};
ghost use Rattle.hd_worker.specs.Least.{IsLeastTotal};
ghost use Rattle.hd_worker.specs.Lookup.{IsLookupOf};
ghost use Rattle.hd_turns.specs.Totals.{total_at};
ghost use Rattle.hd_turns.specs.Calls.{Expands, ExpandsBest};

use crate::batching::push_outcome;
use crate::{Lookup, Worker};
use hd_base::NoMemory;
use hd_node::Outcome;

/// Returns the place of the next outcome, counted from the first one of the batch that was given
/// last.
fn next_place(given: &Vec<u64>, outcomes: &Vec<Outcome<'_>>) -> usize
    requires { vec_len given.now ≤ MAX_OUTCOMES }
    ensures { result ≡ vec_len given.now + vec_len outcomes.now }
{
    // So that it is known that the sum fits.
    let _room = outcomes.capacity();
    given.len() + outcomes.len()
}

/// Returns the bytes of the states of an outcome's children.
fn bytes_of(outcome: &Outcome<'_>) -> usize
    ensures { result ≡ min (bytes_of outcome.now) (2 ^ 64 - 1) }
{
    match outcome {
        Outcome::Expanded(expansion) => {
            let each = expansion.state().bytes().len();
            expansion.children().len().saturating_mul(each)
        }
        Outcome::Duplicate(_, _) | Outcome::Bounded(_, _) => 0,
    }
}

impl<'t> Worker<'t> {
    /// Returns the bytes of the states of the last outcome's children: 0 if it has none, or
    /// there is no outcome.
    pub fn last_bytes(&self) -> usize
        ensures { result ≡ min (last_bytes self.now.outcomes) (2 ^ 64 - 1) }
    {
        match self.outcomes.as_slice().last() {
            Some(outcome) => bytes_of(outcome),
            None => 0,
        }
    }

    /// Estimates open nodes that have no estimate yet, so many of them at most, unless their state
    /// was before: whether all have one now. The calls below estimate all that are left; so a
    /// caller that is not to be away for long calls this one first, until it answers true.
    ///
    /// # Errors
    /// - `NoMemory`: there is no room for what is kept of estimates.
    pub fn open_some(&mut self, lookup: &mut Lookup<'t>, most: usize) -> Result<bool, NoMemory>
        requires { IsLookupOf self.old.task lookup.old }
        ensures lookup { IsLookupOf self.old.task lookup.new }
        ensures same { self.new ≡ self.old }
    {
        self.frontier.open_some(&mut lookup.hmax, most)
    }

    /// Reports whether a node is open.
    pub fn has_open(&self) -> bool
        ensures { result ≡ nat_lt 0 (length self.now.waiting) }
    {
        self.frontier.has_open()
    }

    /// Returns the place of the open node of the least cost plus estimate, the earliest of equal
    /// ones; those of infinite estimates come last. None where nothing is open. Nodes that have no
    /// estimate yet are estimated, unless their state was before.
    ///
    /// # Errors
    /// - `NoMemory`: there is no room for what is kept of estimates.
    pub fn best(&mut self, lookup: &mut Lookup<'t>) -> Result<Option<usize>, NoMemory>
        requires { IsLookupOf self.old.task lookup.old }
        ensures lookup { IsLookupOf self.old.task lookup.new }
        ensures same { self.new ≡ self.old }
        ensures best { IfOk result (λ r. IfSome r
            (IsBest (total_at self.old.task) self.old.waiting)) }
        ensures none { IfOk result (λ r. IfNone r (self.old.waiting ≡ [])) }
    {
        self.frontier.best(&mut lookup.hmax)
    }

    /// Returns the least cost plus estimate of the open nodes: that of the node whose place `best`
    /// answers. None where each estimate is infinite, or nothing is open.
    ///
    /// # Errors
    /// - `NoMemory`: there is no room for what is kept of estimates.
    pub fn least(&mut self, lookup: &mut Lookup<'t>) -> Result<Option<u128>, NoMemory>
        requires { IsLookupOf self.old.task lookup.old }
        ensures lookup { IsLookupOf self.old.task lookup.new }
        ensures same { self.new ≡ self.old }
        ensures least { IfOk result (IsLeastTotal (total_at self.old.task) self.old.waiting) }
    {
        self.frontier.least(&mut lookup.hmax)
    }

    /// Makes the open node at a place, in the order of arrival, an outcome: a duplicate by the
    /// closed list; else bounded by the bound that was seen last, or by an infinite estimate; else
    /// expanded. Where there is no such place, nothing happens.
    ///
    /// # Errors
    /// - `NoMemory`: there is no room for it; the node is open again.
    pub fn expand(&mut self, lookup: &mut Lookup<'t>, pick: usize) -> Result<(), NoMemory>
        requires { IsLookupOf self.old.task lookup.old }
        ensures lookup { IsLookupOf self.old.task lookup.new }
        ensures ok { OnOk result
            (Expands self.old.task (hmax self.old.task) pick self.old self.new) }
        ensures err { OnErr result (self.new ≡ self.old) }
    {
        self.outcomes.reserve(1)?;
        let place = next_place(&self.given, &self.outcomes);
        if let Some(outcome) = self.frontier.settle_at(lookup, self.seen, place, pick)? {
            push_outcome(&mut self.outcomes, outcome);
        }
        Ok(())
    }

    /// Does what `expand` does at the answer of `best`, in one step; nothing if nothing is open.
    ///
    /// # Errors
    /// - `NoMemory`: there is no room for it; the node is open again.
    pub fn expand_best(&mut self, lookup: &mut Lookup<'t>) -> Result<(), NoMemory>
        requires { IsLookupOf self.old.task lookup.old }
        ensures lookup { IsLookupOf self.old.task lookup.new }
        ensures ok { OnOk result (ExpandsBest self.old.task self.old self.new) }
        ensures err { OnErr result (self.new ≡ self.old) }
    {
        self.outcomes.reserve(1)?;
        let place = next_place(&self.given, &self.outcomes);
        if let Some(outcome) = self.frontier.settle_best(lookup, self.seen, place)? {
            push_outcome(&mut self.outcomes, outcome);
        }
        Ok(())
    }
}
