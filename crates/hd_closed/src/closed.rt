//! The closed list.
ghost use Rattle.std.specs.Prelude.{◌≡◌, ℕ, ◌+◌, ◌-◌, ◌<◌, ◌≤◌, ◌^◌, ◌++◌, [], ◌∷◌, true, false, Some, map, length, vec_len, vec_capacity, slice_get, slice_index, IfOk, IfSome, IfNone, OnOk, OnErr};
ghost use Rattle.std.specs.List.{AllByRecursion};
ghost use Rattle.hd_task.specs.Plans.{IsStateOf};
ghost use Rattle.hd_hmax.specs.Rounds.{hmax};
ghost use Rattle.hd_hmax.specs.Value.{estimated};
ghost use Rattle.hd_hmax.specs.declared.group.TheConstants.{LANES};
ghost use Rattle.hd_zobrist.specs.Hash.{state_hash};
ghost use Rattle.hd_closed.specs.Numbering.{closed_numbered, numbered};
ghost use Rattle.hd_closed.specs.Closed.{closed_at, IsNamedBy, IsDearer};
ghost use Rattle.hd_base.specs.Lists.{BeginsWith};
ghost use Rattle.hd_closed.specs.Shut.{HasNumbered, AreRenumbered, is_cheaper, no_dearer};

use crate::notes::{Note, add, count_estimated, find};
use crate::numbering::numbered;
use crate::picked::Picked;
use crate::short::{Known, MAX_PLACES, ShortPlace};
use crate::stretch::Stretch;
use hd_base::NoMemory;
use hd_hmax::{EstimateValue, Hmax, LANES};
use hd_node::{By, Hashed};
use hd_pack::Layout;
use hd_tables::{Row, RowBlocks};
use hd_task::Task;
use std::alloc::{AllocError, Global};
use std::marker::Model;

/// The fewest states that are estimated as a group: one or two take less time one by one.
const FEWEST: usize = 3;

/// An expansion: what names it, the place of its state's note, and what its plan costs.
#[derive(Clone, Copy, Debug, PartialEq, Eq)]
pub(crate) struct Shut {
    pub(crate) by: By,
    pub(crate) state: usize,
    pub(crate) cost: u64,
}

/// The states that a worker has met, and the expansions that it knows of, in order.
#[derive(Debug, Drop)]
pub struct ClosedList<'t> {
    task: &'t Task,
    rows: RowBlocks,
    /// Of each state, what is known of it.
    notes: Vec<Note>,
    /// Of each bucket, the place of its last note.
    heads: Vec<ShortPlace>,
    shuts: Vec<Shut>,
    /// All expansions before this place are entries.
    entered: usize,
    /// There is room for one expansion more.
    ready: bool,
    /// How many expansions cost less than one of the same state before them.
    reopened: u64,
}

impl<'t> Model for ClosedList<'t> {
    ghost use Rattle.std.specs.Prelude.{◌≡◌, ◌<◌, true, map, length, vec_len, vec_capacity};
    ghost use Rattle.hd_closed.specs.Closed.{ClosedView};
    ghost use Rattle.hd_task.specs.contracts.task.Task as tasks;
    ghost use Rattle.std.specs.Coded.{codes};

    ghost Value = { ClosedView };

    ghost coded = { Prim.hlevel (codes, tasks.the_row.coded) };

    ghost use Rattle.hd_closed.specs.Shut.{closed_of, IsClosedListKept};
    ghost use Rattle.hd_closed.specs.declared.short.TheConstants.{MAX_PLACES};

    ghost view = { λ c. record {
      task = c.task.now;
      states = c.rows.states;
      closed = map (closed_of c.rows.states) c.shuts.items;
      ready = c.ready;
    } };

    ghost invariant = { λ c. IsClosedListKept c.task.now c.rows.states c.notes.items c.heads.items
        c.shuts.items c.entered
        × (c.rows.widths.atoms ≡ length c.task.now.atoms)
        × (c.rows.widths.fluents ≡ length c.task.now.fluents)
        × (c.ready ≡ true → vec_len c.shuts < vec_capacity c.shuts)
        × (c.ready ≡ true → vec_len c.shuts < MAX_PLACES) };
}

/// Renames the expansions from place `from` on, once the batch that was given last is numbered from
/// `first` on. Those before `from` are entries, which keep their names.
fn number_from(shuts: &mut [Shut], from: usize, first: u64, given: &[u64])
    requires fits { (k : ℕ) → first + slice_index given.now k < 2 ^ 64 }
    requires entered { HasNumbered shuts.old from }
    requires bounded { from ≤ length shuts.old }
    ensures { AreRenumbered first given.now shuts.old shuts.new }
{
    for place in from..shuts.len() {
        let shut = shuts[place];
        shuts[place] = Shut {
            by: numbered(first, given, shut.by),
            ..shut
        };
    }
}

/// Returns a place up to which all expansions are entries, where they are so up to another.
fn entered_from(shuts: &[Shut], from: usize) -> usize
    requires entered { HasNumbered shuts.now from }
    requires bounded { from ≤ length shuts.now }
    ensures entered { HasNumbered shuts.now result }
    ensures bounded { result ≤ length shuts.now }
{
    let mut entered = from;
    while entered < shuts.len() {
        match shuts[entered].by {
            By::Entry(_) => entered += 1,
            By::Here(_) => return entered,
        }
    }
    entered
}

/// Adds one expansion more, if there is room for it.
fn push_shut(shuts: &mut Vec<Shut>, shut: Shut)
    requires { vec_len shuts.old < vec_capacity shuts.old }
    ensures { shuts.new.items ≡ shuts.old.items ++ shut ∷ [] }
{
    match shuts.push(shut) {
        Ok(()) => {}
        Err(_) => unreachable!(),
    }
}

/// Reports whether an expansion of this cost is cheaper than that at a place, if there is one.
fn is_cheaper(shuts: &[Shut], least: Option<usize>, cost: u64) -> bool
    ensures { result ≡ is_cheaper shuts.now least cost }
{
    match least {
        Some(place) => match shuts.get(place) {
            Some(shut) => cost < shut.cost,
            None => true,
        },
        None => true,
    }
}

/// Returns what names the expansion at a place, if there is one, and it costs no more.
fn no_dearer(shuts: &[Shut], least: Option<usize>, cost: u64) -> Option<By>
    ensures { result ≡ no_dearer shuts.now least cost }
{
    match least {
        Some(place) => match shuts.get(place) {
            Some(shut) => {
                if shut.cost <= cost {
                    Some(shut.by)
                } else {
                    None
                }
            }
            None => None,
        },
        None => None,
    }
}

impl<'t> ClosedList<'t> {
    /// Returns no states and no expansions.
    pub fn empty(alloc: Global, task: &'t Task) -> ClosedList<'t>
        ensures { result ≡ record { task = task.now; states = []; closed = []; ready = false } }
    {
        ClosedList {
            task,
            rows: RowBlocks::empty(alloc, Layout::new(task)),
            notes: Vec::new(alloc),
            heads: Vec::new(alloc),
            shuts: Vec::new(alloc),
            entered: 0,
            ready: false,
            reopened: 0,
        }
    }

    /// Returns how many states there are.
    pub fn len(&self) -> usize
        ensures { result ≡ length self.now.states }
    {
        self.notes.len()
    }

    /// Returns how many of the states have an estimate that is kept.
    pub fn estimated(&self) -> u64 {
        count_estimated(self.notes.as_slice())
    }

    /// Returns how many expansions were of a state that had one already, which cost more.
    pub fn reopened(&self) -> u64 {
        self.reopened
    }

    /// Returns the place of a state. One that was not met before comes after the others, as a
    /// copy.
    ///
    /// # Errors
    /// - `NoMemory`: there is no room for it.
    pub fn place_of(&mut self, alloc: Global, state: &Hashed) -> Result<usize, NoMemory>
        requires of_task { IsStateOf self.old.task state.now }
        ensures task { self.new.task ≡ self.old.task }
        ensures begins { BeginsWith self.new.states self.old.states }
        ensures closed { self.new.closed ≡ self.old.closed }
        ensures ready { self.new.ready ≡ self.old.ready }
        ensures place { IfOk result (λ k. slice_get self.new.states k ≡ Some state.now) }
        ensures err { OnErr result (self.new ≡ self.old) }
    {
        let found = find(
            &self.rows,
            self.notes.as_slice(),
            self.heads.as_slice(),
            state,
        );
        if let Some(place) = found {
            return Ok(place);
        }
        let place = self.notes.len();
        add(
            alloc,
            &mut self.rows,
            &mut self.notes,
            &mut self.heads,
            state,
        )?;
        Ok(place)
    }

    /// Returns the state at a place.
    pub fn state(&self, place: usize) -> Row<'_>
        requires { place < length self.now.states }
        ensures state { slice_get self.now.states place ≡ Some result }
        ensures of_task { IsStateOf self.now.task result }
    {
        self.rows.at(place)
    }

    /// Returns the hash of the state at a place.
    pub fn hash(&self, place: usize) -> u64
        requires { place < length self.now.states }
        ensures { IfSome (slice_get self.now.states place) (λ s. result ≡ state_hash s) }
    {
        self.notes[place].hash
    }

    /// Returns the estimate of the state at `place`. It is made when first asked for, and kept.
    pub fn estimate(&mut self, estimates: &mut Hmax<'t>, place: usize) -> EstimateValue
        requires place { place < length self.old.states }
        requires of_task { estimates.old.task ≡ self.old.task }
        ensures value { IfSome (slice_get self.old.states place)
            (λ s. estimated result ≡ hmax self.old.task s) }
        ensures same { self.new ≡ self.old }
        ensures task { estimates.new.task ≡ estimates.old.task }
    {
        let known = self.notes[place].value.get();
        if let Some(value) = known {
            return value;
        }
        let value = estimates.value(&self.rows.at(place));
        self.note_estimate(place, value);
        value
    }

    /// Notes the estimate of the state at `place`. One of more than 64 bits is not kept.
    fn note_estimate(&mut self, place: usize, value: EstimateValue)
        requires place { place < length self.old.states }
        requires value { IfSome (slice_get self.old.states place)
            (λ s. estimated value ≡ hmax self.old.task s) }
        ensures { self.new ≡ self.old }
    {
        self.notes[place].value = Known::of(value);
    }

    /// Estimates the states from place `first` up to `end` as a group, and notes the values.
    fn estimate_stretch(&mut self, estimates: &mut Hmax<'t>, first: usize, end: usize)
        requires ordered { first ≤ end }
        requires within { end ≤ length self.old.states }
        requires few { end - first ≤ LANES }
        requires of_task { estimates.old.task ≡ self.old.task }
        ensures same { self.new ≡ self.old }
        ensures task { estimates.new.task ≡ estimates.old.task }
    {
        let values = estimates.estimates(&Stretch::of(&self.rows, first, end));
        for place in first..end {
            if let Some(value) = values[place - first] {
                self.note_estimate(place, value);
            }
        }
    }

    /// Estimates the states from place `from` on in groups of up to [`LANES`], so that
    /// [`ClosedList::estimate`] finds their values. It leaves out a last group of one or two, and
    /// those that [`Hmax::estimates`] leaves out.
    pub fn estimate_from(&mut self, estimates: &mut Hmax<'t>, from: usize)
        requires { estimates.old.task ≡ self.old.task }
        ensures same { self.new ≡ self.old }
        ensures task { estimates.new.task ≡ estimates.old.task }
    {
        let len = self.len();
        let mut first = from;
        while len.saturating_sub(first) >= FEWEST {
            let end = first + (len - first).min(LANES);
            self.estimate_stretch(estimates, first, end);
            first = end;
        }
    }

    /// Estimates the states at these places as a group, and notes the values.
    fn estimate_group(&mut self, estimates: &mut Hmax<'t>, places: &[usize])
        requires within { AllByRecursion (λ k. k < length self.old.states) places.now }
        requires few { length places.now ≤ LANES }
        requires of_task { estimates.old.task ≡ self.old.task }
        ensures same { self.new ≡ self.old }
        ensures task { estimates.new.task ≡ estimates.old.task }
    {
        let values = estimates.estimates(&Picked::of(&self.rows, places));
        for lane in 0..places.len() {
            if let Some(value) = values[lane] {
                self.note_estimate(places[lane], value);
            }
        }
    }

    /// Returns those of the places whose states have no estimate that is kept.
    ///
    /// # Errors
    /// - `NoMemory`: there is no room for them.
    fn unknown_of(&self, alloc: Global, places: &[u32]) -> Result<Vec<usize>, NoMemory>
        ensures { IfOk result (λ ks. AllByRecursion (λ k. k < length self.now.states) ks.items) }
    {
        let mut unknown = Vec::new(alloc);
        for number in 0..places.len() {
            let place = places[number] as usize;
            if place < self.notes.len() && self.notes[place].value.get().is_none() {
                unknown.push(place)?;
            }
        }
        Ok(unknown)
    }

    /// Estimates those of the states at these places that have no estimate in groups of up to
    /// [`LANES`], so that [`ClosedList::estimate`] finds their values. It leaves out what
    /// [`ClosedList::estimate_from`] does.
    ///
    /// # Errors
    /// - `NoMemory`: there is no room for a list of those states.
    pub fn estimate_at(
        &mut self,
        alloc: Global,
        estimates: &mut Hmax<'t>,
        places: &[u32],
    ) -> Result<(), NoMemory>
        requires { estimates.old.task ≡ self.old.task }
        ensures same { self.new ≡ self.old }
        ensures task { estimates.new.task ≡ estimates.old.task }
    {
        let unknown = self.unknown_of(alloc, places)?;
        let mut first = 0;
        while unknown.len().saturating_sub(first) >= FEWEST {
            let end = first + (unknown.len() - first).min(LANES);
            self.estimate_group(estimates, &unknown.as_slice()[first..end]);
            first = end;
        }
        Ok(())
    }

    /// Returns what names an expansion of the state at a place that costs no more, if there is one.
    pub fn dominating(&self, place: usize, cost: u64) -> Option<By>
        requires { place < length self.now.states }
        ensures named { IfSome result (λ by. IfSome (slice_get self.now.states place)
            (λ s. IsNamedBy self.now.closed s cost by)) }
        ensures none { IfNone result (IfSome (slice_get self.now.states place)
            (λ s. IsDearer self.now.closed s cost)) }
    {
        no_dearer(self.shuts.as_slice(), self.notes[place].least.get(), cost)
    }

    /// Makes room for one expansion more.
    ///
    /// # Errors
    /// - `NoMemory`: there is none.
    pub fn reserve(&mut self) -> Result<(), NoMemory>
        ensures task { self.new.task ≡ self.old.task }
        ensures states { self.new.states ≡ self.old.states }
        ensures closed { self.new.closed ≡ self.old.closed }
        ensures ready { OnOk result (self.new.ready ≡ true) }
        ensures err { OnErr result (self.new ≡ self.old) }
    {
        if self.shuts.len() >= MAX_PLACES {
            return Err(AllocError);
        }
        self.shuts.reserve(1)?;
        self.ready = true;
        Ok(())
    }

    /// Adds one expansion more, of the state at a place. It does not allocate.
    pub fn close(&mut self, place: usize, by: By, cost: u64)
        requires place { place < length self.old.states }
        requires ready { self.old.ready ≡ true }
        ensures task { self.new.task ≡ self.old.task }
        ensures states { self.new.states ≡ self.old.states }
        ensures closed { self.new.closed
            ≡ self.old.closed ++ closed_at self.old.states place by cost ∷ [] }
    {
        let added = self.shuts.len();
        let least = self.notes[place].least.get();
        let cheaper = is_cheaper(self.shuts.as_slice(), least, cost);
        self.ready = false;
        push_shut(
            &mut self.shuts,
            Shut {
                by,
                state: place,
                cost,
            },
        );
        if cheaper {
            self.notes[place].least = ShortPlace::of(added);
            self.reopened = self.reopened.saturating_add(u64::from(least.is_some()));
        }
    }

    /// Renames all expansions, once the batch that was given last is numbered from `first` on:
    /// of each outcome of that batch, `given` has how many expansions stand before it. It takes no
    /// memory, and looks only at expansions from the first one on that had no number before.
    pub fn number(&mut self, first: u64, given: &[u64])
        requires { (k : ℕ) → first + slice_index given.now k < 2 ^ 64 }
        ensures task { self.new.task ≡ self.old.task }
        ensures states { self.new.states ≡ self.old.states }
        ensures closed { self.new.closed
            ≡ map (closed_numbered first given.now) self.old.closed }
        ensures ready { self.new.ready ≡ self.old.ready }
    {
        number_from(self.shuts.as_mut_slice(), self.entered, first, given);
        self.entered = entered_from(self.shuts.as_slice(), self.entered);
    }
}
