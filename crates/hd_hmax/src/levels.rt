//! Levels: the table of a level has a word for each place, with the lanes in whose states the place
//! costs at most so much.
//!
//! An action of price p gives what it brings about, in the table of a level, to the lanes that have
//! all that it needs in the table p levels below. So one word serves all lanes at once.
ghost use Rattle.std.specs.Prelude.{◌≡◌, ℕ, ◌+◌, ◌-◌, ◌<◌, ◌≤◌, Bool, List, true, false, Some, None, length, slice_get, slice_index_or, slice_set, IfOk, Contains, ◌*◌, ◌^◌};
ghost use Rattle.std.specs.Int.{bit_at};
ghost use Rattle.std.specs.List.{AllByRecursion};
ghost use Rattle.hd_task.specs.declared.state.State.{State};
ghost use Rattle.hd_task.specs.declared.task.TheConstants.{MAX_ATOMS};
ghost use Rattle.hd_task.specs.Conditions.{has_atom, literal_holds};
ghost use Rattle.hd_task.specs.Plans.{IsStateOf};
ghost use Rattle.hd_hmax.specs.declared.group.TheConstants.{LANES};
ghost use Rattle.hd_task.specs.Conditions.{literal};
ghost use Rattle.hd_hmax.specs.Rules.{places, place_at};
ghost use Rattle.hd_hmax.specs.Batches.{AreFollowed};
ghost use Rattle.hd_hmax.specs.Lanes.{bit, is_set, table_of, price_at, IsLane, IsSound, IsShut, AreLevels, HasWidths, HasLanes, IsValueOf};

use crate::rules::Rules;
use crate::words::{give_to, note, ready, take_action, take_batch, unserved};
use crate::{EstimateValue, Group, LANES};
use hd_base::NoMemory;
use std::alloc::Global;
use std::marker::Model;

/// How many words all tables have together, at most.
const MOST_WORDS: usize = 524_288;

/// How many levels there are, at most.
const MOST_LEVELS: usize = 256;

/// How often the actions that cost nothing are gone through at a level, at most.
const MOST_PASSES: usize = 64;

/// The words of a level.
#[derive(Debug, Drop)]
pub(crate) struct Table {
    words: Vec<u64>,
}

impl Model for Table {
    ghost use Rattle.std.specs.Prelude.{ℕ, List};

    ghost Value = { List ℕ };

    ghost view = { λ t. t.words.items };
}

impl Table {
    /// Returns the words.
    #[inline(always)]
    fn as_slice(&self) -> &[u64]
        ensures { result.now ≡ self.now }
    {
        self.words.as_slice()
    }
}

/// What is written again for each group of states.
#[derive(Debug, Drop)]
pub(crate) struct Lanes {
    /// By place: the lanes in which it is true.
    first: Vec<u64>,
    /// The table of the last level, from which the next is made.
    room: Vec<u64>,
    /// By level: its table.
    tables: Vec<Table>,
}

/// Returns the lanes in which an atom is true.
fn lanes_of<G: Group>(group: &G, atom: u32) -> u64
    requires { length (G.states group.now) ≤ LANES }
    ensures { (j : ℕ) (s : State) → slice_get (G.states group.now) j ≡ Some s
        → bit result j ≡ has_atom s atom }
{
    let count = group.count();
    let mut lanes = 0;
    for done in 0..count {
        let is_true = group.has_atom(count - 1 - done, atom);
        lanes = 2 * lanes + u64::from(is_true);
    }
    lanes
}

/// Puts eight bits before those of eight words.
#[inline(always)]
fn put_eight(words: &mut [u64; 8], byte: u8)
    requires { (k : ℕ) → k < 8 → slice_index_or words.old k 0 < 2 ^ 63 }
    ensures { (k : ℕ) → k < 8 → slice_index_or words.new k 0
        ≡ 2 * slice_index_or words.old k 0 + bit_at byte k }
{
    for index in 0..8 {
        words[index] = 2 * words[index] + u64::from((byte >> index) & 1);
    }
}

/// Returns the lanes in which eight atoms are true, from the atom `8 * number` on.
fn lanes_of_eight<G: Group>(group: &G, number: usize) -> [u64; 8]
    requires few { length (G.states group.now) ≤ LANES }
    requires atoms { AllByRecursion (λ s. 8 * number + 8 ≤ length s.atoms) (G.states group.now) }
    ensures { (k j : ℕ) (s : State) → k < 8 → slice_get (G.states group.now) j ≡ Some s
        → bit (slice_index_or result k 0) j ≡ has_atom s (8 * number + k) }
{
    let count = group.count();
    let mut words = [0; 8];
    for done in 0..count {
        put_eight(&mut words, group.eight_atoms(count - 1 - done, number));
    }
    words
}

/// Writes which lanes have what, by the states of a group.
fn load<G: Group>(first: &mut Vec<u64>, group: &G, atoms: usize)
    requires few { length (G.states group.now) ≤ LANES }
    requires same { AllByRecursion (λ s. length s.atoms ≡ atoms) (G.states group.now) }
    requires small { atoms ≤ MAX_ATOMS }
    requires wide { length first.old.items ≡ places atoms }
    ensures wide { length first.new.items ≡ places atoms }
    ensures lanes { (j : ℕ) (s : State) (b : Bool) (i : ℕ)
        → slice_get (G.states group.now) j ≡ Some s → i ≤ atoms
        → is_set first.new.items (place_at atoms b i) j ≡ literal_holds s (literal b i) }
{
    let whole = atoms / 8;
    for number in 0..whole {
        let words = lanes_of_eight(group, number);
        for index in 0..8 {
            let atom = 8 * number + index;
            first[atom] = words[index];
            first[atoms + 1 + atom] = !words[index];
        }
    }
    for atom in 8 * whole..atoms + 1 {
        let lanes = lanes_of(group, atom as u32);
        first[atom] = lanes;
        first[atoms + 1 + atom] = !lanes;
    }
}

/// Takes over as many words as there are.
fn copy_words(words: &mut Vec<u64>, from: &[u64])
    requires { length from.now ≡ length words.old.items }
    ensures { words.new.items ≡ from.now }
{
    words.as_mut_slice().copy_from_slice(from);
}

/// Writes the table of a level.
fn keep(tables: &mut Vec<Table>, level: usize, words: &[u64])
    requires there { level < length tables.old.items }
    requires wide { length words.now ≡ length (table_of tables.old.items level) }
    ensures { tables.new.items ≡ slice_set tables.old.items level words.now }
{
    copy_words(&mut tables[level].words, words);
}

/// Gives to the table of a level what recipes bring about that cost something.
fn bring_batches(rules: &Rules<'_>, room: &mut Vec<u64>, tables: &[Table], level: usize)
    requires wide { length room.old.items ≡ places (length rules.now.task.now.atoms) }
    requires widths { HasWidths rules.now.task.now tables.now }
    requires there { level ≤ length tables.now }
    ensures wide { length room.new.items ≡ places (length rules.now.task.now.atoms) }
    ensures kept { (p j : ℕ) → j < 64
        → is_set room.old.items p j ≡ true → is_set room.new.items p j ≡ true }
    ensures followed { AreFollowed rules.now.batches.recipes.items tables.now level (level + 1)
        room.new.items }
    ensures sound { (s : State) (j : ℕ) → j < 64
        → ((c : ℕ) → c < level → IsSound rules.now.task.now s c (table_of tables.now c) j)
        → IsSound rules.now.task.now s level room.old.items j
        → IsSound rules.now.task.now s level room.new.items j }
{
    let most = rules.batches.recipes.len();
    for price in 1..level + 1 {
        if price < most {
            let old = tables[level - price].as_slice();
            take_batch(room, old, rules.batches.recipes[price].as_slice());
        }
    }
}

/// Gives to the table of a level what actions bring about that cost something and have no recipes.
fn bring_rest(rules: &Rules<'_>, room: &mut Vec<u64>, tables: &[Table], level: usize)
    requires wide { length room.old.items ≡ places (length rules.now.task.now.atoms) }
    requires widths { HasWidths rules.now.task.now tables.now }
    requires there { level ≤ length tables.now }
    ensures wide { length room.new.items ≡ places (length rules.now.task.now.atoms) }
    ensures kept { (p j : ℕ) → j < 64
        → is_set room.old.items p j ≡ true → is_set room.new.items p j ≡ true }
    ensures shut { (q j : ℕ) → j < 64 → Contains rules.now.batches.rest.items q
        → 0 < price_at rules.now.task.now q → price_at rules.now.task.now q ≤ level
        → IsShut rules.now.task.now rules.now.brings q
        (table_of tables.now (level - price_at rules.now.task.now q)) room.new.items j }
    ensures sound { (s : State) (j : ℕ) → j < 64
        → ((c : ℕ) → c < level → IsSound rules.now.task.now s c (table_of tables.now c) j)
        → IsSound rules.now.task.now s level room.old.items j
        → IsSound rules.now.task.now s level room.new.items j }
{
    for action in rules.batches.rest.as_slice() {
        let price = rules.prices[*action];
        if 0 < price && price <= level as u128 {
            let old = tables[level - price as usize].as_slice();
            take_action(
                room,
                old,
                rules.needs.row(*action),
                rules.brings.row(*action),
            );
        }
    }
}

/// Gives to the table of a level what actions bring about that cost something.
fn bring_paid(rules: &Rules<'_>, room: &mut Vec<u64>, tables: &[Table], level: usize)
    requires wide { length room.old.items ≡ places (length rules.now.task.now.atoms) }
    requires widths { HasWidths rules.now.task.now tables.now }
    requires there { level ≤ length tables.now }
    ensures wide { length room.new.items ≡ places (length rules.now.task.now.atoms) }
    ensures kept { (p j : ℕ) → j < 64
        → is_set room.old.items p j ≡ true → is_set room.new.items p j ≡ true }
    ensures shut { (q j : ℕ) → j < 64 → q < length rules.now.task.now.actions
        → 0 < price_at rules.now.task.now q → price_at rules.now.task.now q ≤ level
        → IsShut rules.now.task.now rules.now.brings q
        (table_of tables.now (level - price_at rules.now.task.now q)) room.new.items j }
    ensures sound { (s : State) (j : ℕ) → j < 64
        → ((c : ℕ) → c < level → IsSound rules.now.task.now s c (table_of tables.now c) j)
        → IsSound rules.now.task.now s level room.old.items j
        → IsSound rules.now.task.now s level room.new.items j }
{
    bring_batches(rules, room, tables, level);
    bring_rest(rules, room, tables, level);
}

/// Gives to a table what actions bring about by it that cost nothing; reports whether it had all
/// that.
fn pass_free(rules: &Rules<'_>, room: &mut Vec<u64>) -> bool
    requires wide { length room.old.items ≡ places (length rules.now.task.now.atoms) }
    ensures wide { length room.new.items ≡ places (length rules.now.task.now.atoms) }
    ensures kept { (p j : ℕ) → j < 64
        → is_set room.old.items p j ≡ true → is_set room.new.items p j ≡ true }
    ensures shut { result ≡ true → (q j : ℕ) → j < 64 → q < length rules.now.task.now.actions
        → price_at rules.now.task.now q ≡ 0
        → IsShut rules.now.task.now rules.now.brings q room.new.items room.new.items j }
    ensures sound { (s : State) (j c : ℕ) → j < 64
        → IsSound rules.now.task.now s c room.old.items j
        → IsSound rules.now.task.now s c room.new.items j }
{
    let mut still = true;
    for action in 0..rules.task.actions.len() {
        if rules.prices[action] == 0 {
            let brings = rules.brings.row(action);
            let lanes = unserved(room.as_slice(), rules.needs.row(action), brings);
            if lanes != 0 {
                give_to(room, lanes, brings);
                still = false;
            }
        }
    }
    still
}

/// Gives to the table of a level what actions bring about that cost nothing; reports whether that
/// is all.
fn bring_free(rules: &Rules<'_>, room: &mut Vec<u64>) -> bool
    requires wide { length room.old.items ≡ places (length rules.now.task.now.atoms) }
    ensures wide { length room.new.items ≡ places (length rules.now.task.now.atoms) }
    ensures kept { (p j : ℕ) → j < 64
        → is_set room.old.items p j ≡ true → is_set room.new.items p j ≡ true }
    ensures shut { result ≡ true → (q j : ℕ) → j < 64 → q < length rules.now.task.now.actions
        → price_at rules.now.task.now q ≡ 0
        → IsShut rules.now.task.now rules.now.brings q room.new.items room.new.items j }
    ensures sound { (s : State) (j c : ℕ) → j < 64
        → IsSound rules.now.task.now s c room.old.items j
        → IsSound rules.now.task.now s c room.new.items j }
{
    if !rules.has_free {
        return true;
    }
    for _ in 0..MOST_PASSES {
        if pass_free(rules, room) {
            return true;
        }
    }
    false
}

/// Makes the table of a level from those below; reports whether it is whole.
fn make(rules: &Rules<'_>, room: &mut Vec<u64>, tables: &mut Vec<Table>, level: usize) -> bool
    requires wide { length room.old.items ≡ places (length rules.now.task.now.atoms) }
    requires widths { HasWidths rules.now.task.now tables.old.items }
    requires there { level < length tables.old.items }
    ensures wide { length room.new.items ≡ places (length rules.now.task.now.atoms) }
    ensures widths { HasWidths rules.now.task.now tables.new.items }
    ensures many { length tables.new.items ≡ length tables.old.items }
    ensures last { table_of tables.new.items level ≡ room.new.items }
    ensures levels { result ≡ true → (first : List ℕ)
        → AreLevels rules.now.task.now rules.now.brings first level tables.old.items room.old.items
        → AreLevels rules.now.task.now rules.now.brings first (level + 1)
        tables.new.items room.new.items }
{
    bring_paid(rules, room, tables.as_slice(), level);
    let is_whole = bring_free(rules, room);
    keep(tables, level, room);
    is_whole
}

/// Reports whether no action brings anything more about, whatever it costs.
fn is_stuck(rules: &Rules<'_>, table: &[u64]) -> bool
    requires wide { length table.now ≡ places (length rules.now.task.now.atoms) }
    ensures { result ≡ true → (q j : ℕ) → j < 64 → q < length rules.now.task.now.actions
        → IsShut rules.now.task.now rules.now.brings q table.now table.now j }
{
    for action in 0..rules.task.actions.len() {
        if unserved(table, rules.needs.row(action), rules.brings.row(action)) != 0 {
            return false;
        }
    }
    true
}

/// Returns how many levels in a row are as the level below, after one more level.
fn quiet_after(tables: &[Table], level: usize, quiet: u128) -> u128
    requires there { level < length tables.now }
    requires few { quiet ≤ level }
    ensures { result ≤ level + 1 }
{
    if level > 0 && tables[level].as_slice() == tables[level - 1].as_slice() {
        quiet + 1
    } else {
        0
    }
}

/// Returns the first lanes, so many.
fn first_lanes(count: usize) -> u64 {
    if count < LANES {
        (1 << count) - 1
    } else {
        u64::MAX
    }
}

/// Returns how many levels there are room for, with so many places; none where that is too few.
fn levels_for(places: usize) -> usize {
    let levels = MOST_LEVELS.min(MOST_WORDS.checked_div(places).unwrap_or(0));
    if levels < 8 { 0 } else { levels }
}

impl Lanes {
    /// Returns room for the places of `rules`, but for no level where the goal has no literals.
    ///
    /// # Errors
    /// - `NoMemory`: there is no room for 258 words a place, or for two words a place and 4 MiB,
    ///   where that is less.
    pub(crate) fn new(alloc: Global, rules: &Rules<'_>) -> Result<Lanes, NoMemory>
        ensures { IfOk result (HasLanes rules.now.task.now) }
    {
        let places = 2 * rules.atoms + 2;
        let levels = if rules.has_goal() {
            levels_for(places)
        } else {
            0
        };
        let mut tables = Vec::with_capacity(alloc, levels)?;
        for _ in 0..levels {
            let words = vec![in alloc; 0; places]?;
            tables.push(Table { words })?;
        }
        let first = vec![in alloc; 0; places]?;
        let room = vec![in alloc; 0; places]?;
        Ok(Lanes {
            first,
            room,
            tables,
        })
    }

    /// Goes up the levels until each lane of `open` is told, but no more than `most` levels.
    // Its answer is three kilobytes: inlined, it is written once.
    #[inline(always)]
    fn climb(
        &mut self,
        rules: &Rules<'_>,
        most: usize,
        lanes: u64,
    ) -> [Option<EstimateValue>; LANES]
        requires widths { HasLanes rules.now.task.now self.old }
        requires begins { self.old.room.items ≡ self.old.first.items }
        requires there { most ≤ length self.old.tables.items }
        ensures widths { HasLanes rules.now.task.now self.new }
        ensures values { (s : State) (j : ℕ) → j < 64 → IsStateOf rules.now.task.now s
            → IsLane rules.now.task.now s self.old.first.items j
            → IsValueOf rules.now.task.now s (slice_index_or result j None) }
    {
        let goal = rules.task.actions.len();
        let mut values = [None; LANES];
        let mut open = lanes;
        let mut quiet = 0;
        for level in 0..most {
            if !make(rules, &mut self.room, &mut self.tables, level) {
                return values;
            }
            let met = open & ready(self.room.as_slice(), rules.needs.row(goal));
            note(&mut values, met, EstimateValue::Cost(level as u128));
            open &= !met;
            if open == 0 {
                return values;
            }
            quiet = quiet_after(self.tables.as_slice(), level, quiet);
            if quiet >= rules.dearest && is_stuck(rules, self.room.as_slice()) {
                note(&mut values, open, EstimateValue::Dead);
                return values;
            }
        }
        values
    }

    /// Returns the estimates of states, each at its lane. None where the levels that pay do not
    /// tell it.
    #[inline(always)]
    pub(crate) fn estimates<G: Group>(
        &mut self,
        rules: &Rules<'_>,
        group: &G,
    ) -> [Option<EstimateValue>; LANES]
        requires few { length (G.states group.now) ≤ LANES }
        requires of_task { AllByRecursion (IsStateOf rules.now.task.now) (G.states group.now) }
        requires widths { HasLanes rules.now.task.now self.old }
        ensures widths { HasLanes rules.now.task.now self.new }
        ensures values { (lane : ℕ) (s : State) → slice_get (G.states group.now) lane ≡ Some s
            → IsValueOf rules.now.task.now s (slice_index_or result lane None) }
    {
        if !rules.has_goal() {
            return [Some(EstimateValue::Cost(0)); LANES];
        }
        let count = group.count();
        load(&mut self.first, group, rules.atoms);
        copy_words(&mut self.room, self.first.as_slice());
        let most = self.tables.len().min(8 * count);
        self.climb(rules, most, first_lanes(count))
    }
}
