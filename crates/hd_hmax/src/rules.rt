//! A task's actions as rules over places, made once.
//!
//! A rule is an action, by its number, or after the last action the goal. A place is that of a
//! literal: first those of the atoms, then those of their negations; the last of each half stands
//! for all atoms that the task lacks.
ghost use Rattle.std.specs.Prelude.{◌≡◌, ℕ, false, ◌+◌, ◌*◌, ◌<◌, ◌≤◌, ◌++◌, ◌∷◌, [], ◌==◌, Some, None, IfOk, OnOk, length, map, replicate, slice_get, slice_index_or, slice_set, nat_lt, if◌then◌else◌};
ghost use Rattle.hd_task.specs.declared.task.TheConstants.{MAX_ATOMS};
ghost use Rattle.hd_task.specs.Effects.{names_atom};
ghost use Rattle.hd_hmax.specs.Rules.{place, place_at, places, asked_of, asked_by, asked, needs, times, is_asked, added_places, deleted_places, brings_of, IsTransposed, AreRulesOf};
ghost use Rattle.hd_hmax.specs.Lanes.{price_at, AreNeeds};
ghost use Rattle.hd_hmax.specs.Prices.{price};
ghost use Rattle.hd_hmax.specs.Rounds.{hmax};
ghost use Rattle.hd_task.specs.declared.state.State.{State};
ghost use Rattle.hd_hmax.specs.Batches.{AreBatches};

use crate::batches::Batches;
use crate::prices::prices_of;
use crate::rows::NumberRows;
use hd_base::{NoMemory, Sequence};
use hd_task::{Action, Literal, Task};
use std::alloc::Global;
use std::mem::replace;

/// How many prices have batches, at most: dearer actions come into no level.
const MOST_PRICES: usize = 256;

/// A task's rules.
#[derive(Debug, Drop)]
pub(crate) struct Rules<'t> {
    pub(crate) task: &'t Task,
    /// How many atoms the task has.
    pub(crate) atoms: usize,
    /// By rule: what it costs at least. The goal costs nothing.
    pub(crate) prices: Vec<u128>,
    /// By rule: how many places it needs.
    pub(crate) counts: Vec<usize>,
    /// By place: the rules that need it.
    pub(crate) askers: NumberRows,
    /// By action: the places of what it brings about, if a rule needs them.
    pub(crate) brings: NumberRows,
    /// By rule: the places that it needs.
    pub(crate) needs: NumberRows,
    /// Whether an action costs nothing.
    pub(crate) has_free: bool,
    /// What the dearest action costs.
    pub(crate) dearest: u128,
    /// The actions as recipes.
    pub(crate) batches: Batches,
    // The places fit 32 bits.
    ghost few: { atoms ≤ MAX_ATOMS },
    // They are those of the task.
    ghost of_task: { AreRulesOf task.now atoms prices.items counts.items askers brings },
    // The needs are theirs.
    ghost asks: { AreNeeds task.now needs },
    // Where no action costs nothing, each costs something.
    ghost paid: { has_free ≡ false → (q : ℕ) → q < length task.now.actions
        → 0 < price_at task.now q },
    // The recipes are theirs.
    ghost batched: { ∥ AreBatches needs brings (map (price task.now) task.now.actions)
        (length task.now.actions) batches.recipes.items batches.rest.items ∥₁ },
}

/// Returns the place of an atom or of its negation.
#[inline(always)]
pub(crate) fn place_at(atoms: usize, atom: usize, positive: bool) -> usize
    requires few { atoms ≤ MAX_ATOMS }
    requires within { atom ≤ atoms }
    ensures { result ≡ place_at atoms positive atom }
{
    if positive { atom } else { atoms + 1 + atom }
}

/// Returns the place of a literal.
fn place_of(atoms: usize, literal: Literal) -> usize
    requires few { atoms ≤ MAX_ATOMS }
    ensures place { result ≡ place atoms literal }
    ensures within { result < places atoms }
{
    let atom = literal.atom as usize;
    let near = if atom < atoms { atom } else { atoms };
    place_at(atoms, near, literal.positive)
}

/// Reports whether an atom is one of these.
fn names_atom(atoms: &[u32], atom: u32) -> bool
    ensures { result ≡ names_atom atoms.now atom }
{
    atoms.iter().any(|named| *named == atom)
}

/// Returns the literals of a rule's condition.
fn asked_by(task: &Task, rule: usize) -> &[Literal]
    ensures { result.now ≡ asked_by task.now (slice_get task.now.actions rule) }
{
    match task.actions.as_slice().get(rule) {
        Some(action) => action.condition.literals.as_slice(),
        None => task.goal.literals.as_slice(),
    }
}

/// Returns `count` empty lists.
fn no_lists(alloc: Global, count: usize) -> Result<Vec<Sequence<u32>>, NoMemory>
    ensures { IfOk result (λ v. v.items ≡ replicate count []) }
{
    let mut lists = Vec::with_capacity(alloc, count)?;
    for _ in 0..count {
        lists.push(Sequence::empty(alloc))?;
    }
    Ok(lists)
}

/// Puts a rule into the list of a place.
fn add(
    alloc: Global,
    lists: &mut Vec<Sequence<u32>>,
    place: usize,
    rule: u32,
) -> Result<(), NoMemory>
    requires { place < length lists.old.items }
    ensures { OnOk result (lists.new.items ≡ slice_set lists.old.items place
        (slice_index_or lists.old.items place [] ++ rule ∷ [])) }
{
    let mut list = replace(&mut lists[place], Sequence::empty(alloc)).into_vec();
    list.push(rule)?;
    lists[place] = Sequence::from_vec(list);
    Ok(())
}

/// Puts a rule into the lists of the places of literals.
fn add_each(
    alloc: Global,
    lists: &mut Vec<Sequence<u32>>,
    atoms: usize,
    literals: &[Literal],
    rule: u32,
) -> Result<(), NoMemory>
    requires few { atoms ≤ MAX_ATOMS }
    requires count { length lists.old.items ≡ places atoms }
    ensures count { OnOk result (length lists.new.items ≡ length lists.old.items) }
    ensures more { OnOk result ((p q : ℕ) → p < places atoms
        → times q (slice_index_or lists.new.items p [])
        ≡ times q (slice_index_or lists.old.items p [])
        + (if rule == q then times p (map (place atoms) literals.now) else 0)) }
{
    for literal in literals {
        add(alloc, lists, place_of(atoms, *literal), rule)?;
    }
    Ok(())
}

/// Puts a rule into the lists of the places that it needs, and counts these. A rule of no literals
/// needs what is always so: the negation of an atom that the task lacks.
fn add_rule(
    alloc: Global,
    lists: &mut Vec<Sequence<u32>>,
    atoms: usize,
    literals: &[Literal],
    rule: u32,
) -> Result<usize, NoMemory>
    requires few { atoms ≤ MAX_ATOMS }
    requires count { length lists.old.items ≡ places atoms }
    ensures count { OnOk result (length lists.new.items ≡ length lists.old.items) }
    ensures needs { IfOk result (λ k. k ≡ length (asked_of atoms literals.now)) }
    ensures more { OnOk result ((p q : ℕ) → p < places atoms
        → times q (slice_index_or lists.new.items p [])
        ≡ times q (slice_index_or lists.old.items p [])
        + (if rule == q then times p (map (place atoms) (asked_of atoms literals.now)) else 0)) }
{
    if literals.is_empty() {
        let always = Literal {
            atom: atoms as u32,
            positive: false,
        };
        add_each(alloc, lists, atoms, &[always], rule)?;
        return Ok(1);
    }
    add_each(alloc, lists, atoms, literals, rule)?;
    Ok(literals.len())
}

/// Returns a copy of `lists` as rows.
fn rows_of(alloc: Global, lists: &[Sequence<u32>]) -> Result<NumberRows, NoMemory>
    ensures { IfOk result (λ rows. rows ≡ lists.now) }
{
    let mut rows = NumberRows::none(alloc)?;
    for list in lists {
        rows.push(list.as_slice())?;
    }
    Ok(rows)
}

/// Returns by place the rules that need it, and by rule how many places it needs.
fn askers_of(alloc: Global, task: &Task) -> Result<(NumberRows, Vec<usize>), NoMemory>
    ensures { IfOk result (λ r. IsTransposed task.now r.0 r.1.items) }
{
    let atoms = task.atoms.len();
    let rules = task.actions.len() + 1;
    let mut lists = no_lists(alloc, 2 * atoms + 2)?;
    let mut counts = Vec::with_capacity(alloc, rules)?;
    for rule in 0..rules {
        let literals = asked_by(task, rule);
        counts.push(add_rule(alloc, &mut lists, atoms, literals, rule as u32)?)?;
    }
    let askers = rows_of(alloc, lists.as_slice())?;
    Ok((askers, counts))
}

/// Reports whether a rule needs a place.
fn is_asked(askers: &NumberRows, place: usize) -> bool
    requires { place < length askers.now }
    ensures { result ≡ is_asked askers.now place }
{
    !askers.row(place).is_empty()
}

/// Puts the places of added atoms after others, if a rule needs them.
fn push_added(
    row: &mut Vec<u32>,
    atoms: usize,
    askers: &NumberRows,
    adds: &[u32],
) -> Result<(), NoMemory>
    requires few { atoms ≤ MAX_ATOMS }
    requires places { length askers.now ≡ places atoms }
    ensures { OnOk result (row.new.items
        ≡ row.old.items ++ added_places atoms askers.now adds.now) }
{
    for atom in adds {
        if (*atom as usize) < atoms && is_asked(askers, *atom as usize) {
            row.push(*atom)?;
        }
    }
    Ok(())
}

/// Puts the places of the negations of deleted atoms after others, if a rule needs them, but for
/// what is added.
fn push_deleted(
    row: &mut Vec<u32>,
    atoms: usize,
    askers: &NumberRows,
    adds: &[u32],
    deletes: &[u32],
) -> Result<(), NoMemory>
    requires few { atoms ≤ MAX_ATOMS }
    requires places { length askers.now ≡ places atoms }
    ensures { OnOk result (row.new.items
        ≡ row.old.items ++ deleted_places atoms askers.now adds.now deletes.now) }
{
    for atom in deletes {
        if (*atom as usize) < atoms
            && is_asked(askers, atoms + 1 + *atom as usize)
            && !names_atom(adds, *atom)
        {
            row.push((atoms + 1) as u32 + *atom)?;
        }
    }
    Ok(())
}

/// Returns the places of what an action brings about, if a rule needs them.
fn brings_of(
    alloc: Global,
    atoms: usize,
    askers: &NumberRows,
    action: &Action,
) -> Result<Vec<u32>, NoMemory>
    requires few { atoms ≤ MAX_ATOMS }
    requires places { length askers.now ≡ places atoms }
    ensures { IfOk result (λ v. v.items ≡ brings_of atoms askers.now action.now) }
{
    let mut row = Vec::new(alloc);
    let adds = action.adds.as_slice();
    push_added(&mut row, atoms, askers, adds)?;
    push_deleted(&mut row, atoms, askers, adds, action.deletes.as_slice())?;
    Ok(row)
}

/// Returns by action the places of what it brings about, if a rule needs them.
fn all_brings(
    alloc: Global,
    atoms: usize,
    askers: &NumberRows,
    actions: &[Action],
) -> Result<NumberRows, NoMemory>
    requires few { atoms ≤ MAX_ATOMS }
    requires places { length askers.now ≡ places atoms }
    ensures { IfOk result (λ rows. rows ≡ map (brings_of atoms askers.now) actions.now) }
{
    let mut rows = NumberRows::none(alloc)?;
    for action in actions {
        let row = brings_of(alloc, atoms, askers, action)?;
        rows.push(row.as_slice())?;
    }
    Ok(rows)
}

/// Returns how many atoms a task has.
fn atoms_of(task: &Task) -> usize
    ensures count { result ≡ length task.now.atoms }
    ensures few { result ≤ MAX_ATOMS }
{
    task.atoms.len()
}

/// Puts the places of literals after others.
fn push_places(row: &mut Vec<u32>, atoms: usize, literals: &[Literal]) -> Result<(), NoMemory>
    requires few { atoms ≤ MAX_ATOMS }
    ensures { OnOk result (row.new.items ≡ row.old.items ++ map (place atoms) literals.now) }
{
    for literal in literals {
        row.push(place_of(atoms, *literal) as u32)?;
    }
    Ok(())
}

/// Returns the places that a rule needs, by the literals of its condition.
fn needs_by(alloc: Global, atoms: usize, literals: &[Literal]) -> Result<Vec<u32>, NoMemory>
    requires few { atoms ≤ MAX_ATOMS }
    ensures { IfOk result (λ v. v.items ≡ map (place atoms) (asked_of atoms literals.now)) }
{
    let mut row = Vec::new(alloc);
    if literals.is_empty() {
        let always = Literal {
            atom: atoms as u32,
            positive: false,
        };
        push_places(&mut row, atoms, &[always])?;
        return Ok(row);
    }
    push_places(&mut row, atoms, literals)?;
    Ok(row)
}

/// Returns by rule the places that it needs.
fn needs_of(alloc: Global, task: &Task) -> Result<NumberRows, NoMemory>
    ensures { IfOk result (AreNeeds task.now) }
{
    let atoms = atoms_of(task);
    let mut rows = NumberRows::none(alloc)?;
    for rule in 0..task.actions.len() + 1 {
        let row = needs_by(alloc, atoms, asked_by(task, rule))?;
        rows.push(row.as_slice())?;
    }
    Ok(rows)
}

/// Reports whether an action costs nothing.
fn some_free(prices: &[u128], actions: usize) -> bool
    requires { actions ≤ length prices.now }
    ensures { result ≡ false → (q : ℕ) → q < actions → 0 < slice_index_or prices.now q 0 }
{
    for action in 0..actions {
        if prices[action] == 0 {
            return true;
        }
    }
    false
}

/// Returns the greatest price.
fn dearest_of(prices: &[u128]) -> u128 {
    let mut dearest = 0;
    for price in prices {
        dearest = dearest.max(*price);
    }
    dearest
}

/// Returns how many prices have batches, where the dearest action costs so much.
fn prices_below(dearest: u128) -> usize {
    if dearest < MOST_PRICES as u128 {
        dearest as usize + 1
    } else {
        MOST_PRICES
    }
}

impl<'t> Rules<'t> {
    /// Reports whether the goal has literals. If not, no state costs anything.
    pub(crate) fn has_goal(&self) -> bool
        ensures { result ≡ false → (s : State) → hmax self.now.task.now s ≡ Some 0 }
    {
        !self.task.goal.literals.is_empty()
    }

    /// Returns the rules of a task.
    ///
    /// # Errors
    /// - `NoMemory`: there is no room for three numbers a rule, two a place, one for each literal
    ///   of a condition, of the goal and of what an action brings about, three more for every two
    ///   of the latter, and four for each of up to 256 prices.
    pub(crate) fn of(alloc: Global, task: &'t Task) -> Result<Rules<'t>, NoMemory>
        ensures { IfOk result (λ r. r.task.now ≡ task.now) }
    {
        let atoms = atoms_of(task);
        let mut prices = prices_of(alloc, task)?;
        let (askers, counts) = askers_of(alloc, task)?;
        let brings = all_brings(alloc, atoms, &askers, task.actions.as_slice())?;
        let needs = needs_of(alloc, task)?;
        let dearest = dearest_of(prices.as_slice());
        let most = prices_below(dearest);
        let batches = Batches::of(alloc, most, prices.as_slice(), &needs, &brings)?;
        prices.push(0)?;
        let has_free = some_free(prices.as_slice(), task.actions.len());
        Ok(Rules {
            task,
            atoms,
            prices,
            counts,
            askers,
            brings,
            needs,
            has_free,
            dearest,
            batches,
        })
    }
}
