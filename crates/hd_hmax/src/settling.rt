//! Places are closed one after the other, the cheapest first.
ghost use Rattle.std.specs.Prelude.{◌≡◌, ℕ, ◌+◌, ◌*◌, ◌<◌, ◌≤◌, ◌^◌, [], ◌∷◌, true, false, Some, length, replicate, slice_index_or, Contains, IfOk};
ghost use Rattle.hd_task.specs.declared.state.State.{State};
ghost use Rattle.hd_task.specs.Plans.{IsStateOf};
ghost use Rattle.hd_hmax.specs.Rounds.{hmax};
ghost use Rattle.hd_hmax.specs.Rules.{places, row};
ghost use Rattle.hd_hmax.specs.Working.{final_value, is_open, IsTold, HasStarted, Counted, Fair, IsAllReady, HasQueueRoom, HasWidth, Waits, load, StayClosed};

use crate::queue::RuleQueue;
use crate::rules::{Rules, place_at};
use hd_base::NoMemory;
use hd_task::Reads;
use std::alloc::Global;

/// What is written again for each state.
#[derive(Debug, Drop)]
pub(crate) struct Work {
    /// By place: whether what it costs is not known yet.
    pending: Vec<bool>,
    /// By rule: how many of the places that it needs are open.
    left: Vec<usize>,
    queue: RuleQueue,
}

/// Opens all places.
fn open_all(pending: &mut Vec<bool>)
    ensures { pending.new.items ≡ replicate (length pending.old.items) true }
{
    pending.as_mut_slice().fill(true);
}

/// Takes over as many numbers as there are.
fn copy_all(left: &mut Vec<usize>, counts: &[usize])
    requires { length counts.now ≡ length left.old.items }
    ensures { left.new.items ≡ counts.now }
{
    left.as_mut_slice().copy_from_slice(counts);
}

impl Work {
    /// Returns the allocator that this was made with.
    pub(crate) fn allocator(&self) -> Global {
        *self.pending.allocator()
    }

    /// Reports a rule that a place which it needs costs as much as the level. Where that was the
    /// last, it can be taken.
    #[inline(always)]
    fn tell(&mut self, rules: &Rules<'_>, rule: u32, level: u128)
        requires known { rule ≤ length rules.now.task.now.actions }
        requires within { rule < length self.old.left.items }
        requires needs { 0 < slice_index_or self.old.left.items rule 0 }
        requires small { level ≤ 2 ^ 120 }
        requires room { HasQueueRoom rules.now.task.now self.old }
        ensures told { IsTold self.old.left.items (Waits self.old.queue) rule
            (slice_index_or rules.now.prices.items rule 0 + level)
            self.new.left.items (Waits self.new.queue) }
        ensures pending { self.new.pending.items ≡ self.old.pending.items }
        ensures room { HasQueueRoom rules.now.task.now self.new }
        ensures load { load self.new ≤ load self.old }
    {
        let number = rule as usize;
        let fewer = self.left[number] - 1;
        self.left[number] = fewer;
        if fewer == 0 {
            self.queue.push(rules.prices[number] + level, rule);
        }
    }

    /// Closes a place that costs as much as the level, if it is open, and reports the rules that
    /// need it.
    #[inline(always)]
    fn settle(&mut self, rules: &Rules<'_>, place: usize, level: u128)
        requires own { place < places (length rules.now.task.now.atoms) }
        requires counted { Counted rules.now.task.now self.old [] }
        requires small { level ≤ 2 ^ 120 }
        requires room { HasQueueRoom rules.now.task.now self.old }
        ensures counted { Counted rules.now.task.now self.new [] }
        ensures closed { is_open self.new.pending.items place ≡ false }
        ensures stay { StayClosed self.old.pending.items self.new.pending.items }
        ensures fair { (s : State) → (is_open self.old.pending.items place ≡ true
            → final_value rules.now.task.now s place ≡ Some level)
            → Fair rules.now.task.now s self.old level []
            → Fair rules.now.task.now s self.new level [] }
        ensures ready { (busy : ℕ) → IsAllReady rules.now.task.now rules.now.brings self.old busy
            → IsAllReady rules.now.task.now rules.now.brings self.new busy }
        ensures room { HasQueueRoom rules.now.task.now self.new }
        ensures load { load self.new ≤ load self.old }
    {
        let is_open = self.pending[place];
        if is_open {
            self.pending[place] = false;
            let askers = rules.askers.row(place);
            for rule in askers {
                self.tell(rules, *rule, level);
            }
        }
    }

    /// Takes an action: what it brings about costs no more than the level.
    #[inline(always)]
    fn take(&mut self, rules: &Rules<'_>, action: usize, level: u128)
        requires known { action < length rules.now.task.now.actions }
        requires counted { Counted rules.now.task.now self.old [] }
        requires small { level ≤ 2 ^ 120 }
        requires room { HasQueueRoom rules.now.task.now self.old }
        ensures counted { Counted rules.now.task.now self.new [] }
        ensures stay { StayClosed self.old.pending.items self.new.pending.items }
        ensures fair { (s : State) → ((p : ℕ) → Contains (row rules.now.brings action) p
            → is_open self.old.pending.items p ≡ true
            → final_value rules.now.task.now s p ≡ Some level)
            → Fair rules.now.task.now s self.old level []
            → Fair rules.now.task.now s self.new level [] }
        ensures ready { IsAllReady rules.now.task.now rules.now.brings self.old action
            → IsAllReady rules.now.task.now rules.now.brings self.new
            (length rules.now.task.now.actions + 1) }
        ensures room { HasQueueRoom rules.now.task.now self.new }
        ensures load { load self.new ≤ load self.old }
    {
        let brought = rules.brings.row(action);
        for place in brought {
            self.settle(rules, *place as usize, level);
        }
    }

    /// Opens all places, with no rule in the queue.
    fn begin(&mut self, rules: &Rules<'_>)
        requires width { HasWidth rules.now.task.now self.old }
        ensures width { HasWidth rules.now.task.now self.new }
        ensures counted { Counted rules.now.task.now self.new [] }
        ensures fair { (s : State) → Fair rules.now.task.now s self.new 0 [] }
        ensures ready { IsAllReady rules.now.task.now rules.now.brings self.new
            (length rules.now.task.now.actions + 1) }
        ensures room { HasQueueRoom rules.now.task.now self.new }
    {
        open_all(&mut self.pending);
        copy_all(&mut self.left, rules.counts.as_slice());
        self.queue.drop_rules();
    }

    /// Begins with a state: what is true costs nothing.
    fn start<R: Reads>(&mut self, rules: &Rules<'_>, state: &R)
        requires of_task { IsStateOf rules.now.task.now (R.seen state.now) }
        requires width { HasWidth rules.now.task.now self.old }
        ensures counted { Counted rules.now.task.now self.new [] }
        ensures started { HasStarted rules.now.task.now (R.seen state.now) self.new.pending.items }
        ensures fair { Fair rules.now.task.now (R.seen state.now) self.new 0 [] }
        ensures ready { IsAllReady rules.now.task.now rules.now.brings self.new
            (length rules.now.task.now.actions + 1) }
        ensures room { HasQueueRoom rules.now.task.now self.new }
    {
        self.begin(rules);
        for atom in 0..rules.atoms + 1 {
            let positive = state.has_atom(atom as u32);
            self.settle(rules, place_at(rules.atoms, atom, positive), 0);
        }
    }

    /// Returns what the literals of the goal cost from a state on.
    pub(crate) fn goal_cost<R: Reads>(&mut self, rules: &Rules<'_>, state: &R) -> Option<u128>
        requires of_task { IsStateOf rules.now.task.now (R.seen state.now) }
        requires width { HasWidth rules.now.task.now self.old }
        ensures width { HasWidth rules.now.task.now self.new }
        ensures cost { result ≡ hmax rules.now.task.now (R.seen state.now) }
    {
        self.start(rules, state);
        let goal = rules.task.actions.len();
        while let Some((level, rule)) = self.queue.pop() {
            let number = rule as usize;
            if number == goal {
                return Some(level);
            }
            self.take(rules, number, level);
        }
        None
    }

    /// Returns room for the places and the rules of `rules`.
    ///
    /// # Errors
    /// - `NoMemory`: there is no room for a byte a place and seven numbers a rule.
    pub(crate) fn new(alloc: Global, rules: &Rules<'_>) -> Result<Work, NoMemory>
        ensures { IfOk result (HasWidth rules.now.task.now) }
    {
        let count = rules.counts.len();
        let pending = vec![in alloc; true; 2 * rules.atoms + 2]?;
        let left = vec![in alloc; 0; count]?;
        let queue = RuleQueue::new(alloc, count)?;
        Ok(Work {
            pending,
            left,
            queue,
        })
    }
}
