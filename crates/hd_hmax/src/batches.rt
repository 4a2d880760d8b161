//! Recipes: actions in a fixed form, in batches by price, so that a level goes through them fast.
ghost use Rattle.std.specs.Prelude.{◌≡◌, ◌≢◌, ℕ, ◌<◌, ◌≤◌, [], IfOk, OnOk, length, replicate, slice_index_or};
ghost use Rattle.hd_hmax.specs.Rules.{row};
ghost use Rattle.hd_hmax.specs.Batches.{IsRecipe, HasAdded, batch, AreBatches};

use crate::rows::NumberRows;
use hd_base::{NoMemory, Sequence};
use std::alloc::Global;
use std::mem::replace;

/// How many places a recipe needs, at most.
const MOST_NEEDS: usize = 4;

/// All that an action needs, and two places of what it brings about. Where there are fewer, one
/// stands more than once.
#[derive(Clone, Copy, Debug)]
pub(crate) struct Recipe {
    pub(crate) first: u32,
    pub(crate) second: u32,
    pub(crate) third: u32,
    pub(crate) fourth: u32,
    /// What it brings about.
    pub(crate) one: u32,
    pub(crate) other: u32,
}

/// The actions by price, as recipes.
#[derive(Debug, Drop)]
pub(crate) struct Batches {
    /// By price: the recipes of the actions of that price.
    pub(crate) recipes: Vec<Sequence<Recipe>>,
    /// The actions that have no recipes, since they need too much or are too dear.
    pub(crate) rest: Vec<usize>,
}

/// Returns the place that stands there, or one instead where there is none.
fn place_or(places: &[u32], index: usize, instead: u32) -> u32
    ensures { result ≡ slice_index_or places.now index instead }
{
    match places.get(index) {
        Some(place) => *place,
        None => instead,
    }
}

/// Returns the recipe that needs these places and brings two about.
fn recipe_of(needs: &[u32], one: u32, other: u32) -> Recipe
    requires some { 0 < length needs.now }
    ensures first { result.first ≡ slice_index_or needs.now 0 0 }
    ensures second { result.second ≡ slice_index_or needs.now 1 result.first }
    ensures third { result.third ≡ slice_index_or needs.now 2 result.first }
    ensures fourth { result.fourth ≡ slice_index_or needs.now 3 result.first }
    ensures one { result.one ≡ one }
    ensures other { result.other ≡ other }
{
    let first = place_or(needs, 0, 0);
    Recipe {
        first,
        second: place_or(needs, 1, first),
        third: place_or(needs, 2, first),
        fourth: place_or(needs, 3, first),
        one,
        other,
    }
}

/// Puts the recipes of an action after others.
fn push_recipes(recipes: &mut Vec<Recipe>, needs: &[u32], brings: &[u32]) -> Result<(), NoMemory>
    requires some { 0 < length needs.now }
    requires few { length needs.now ≤ 4 }
    ensures { OnOk result (HasAdded needs.now brings.now (length brings.now)
        recipes.old.items recipes.new.items) }
{
    let mut index = 0;
    while index < brings.len() {
        let one = brings[index];
        let other = place_or(brings, index + 1, one);
        recipes.push(recipe_of(needs, one, other))?;
        index += 2;
    }
    Ok(())
}

/// Puts the recipes of an action into the batch of its price.
fn add_recipes(
    alloc: Global,
    batches: &mut Vec<Sequence<Recipe>>,
    price: usize,
    needs: &[u32],
    brings: &[u32],
) -> Result<(), NoMemory>
    requires there { price < length batches.old.items }
    requires some { 0 < length needs.now }
    requires few { length needs.now ≤ 4 }
    ensures many { OnOk result (length batches.new.items ≡ length batches.old.items) }
    ensures added { OnOk result (HasAdded needs.now brings.now (length brings.now)
        (batch batches.old.items price) (batch batches.new.items price)) }
    ensures others { OnOk result ((c : ℕ) → c ≢ price
        → batch batches.new.items c ≡ batch batches.old.items c) }
{
    let mut recipes = replace(&mut batches[price], Sequence::empty(alloc)).into_vec();
    push_recipes(&mut recipes, needs, brings)?;
    batches[price] = Sequence::from_vec(recipes);
    Ok(())
}

/// Returns `count` empty batches.
fn no_batches(alloc: Global, count: usize) -> Result<Vec<Sequence<Recipe>>, NoMemory>
    ensures { IfOk result (λ v. v.items ≡ replicate count []) }
{
    let mut batches = Vec::with_capacity(alloc, count)?;
    for _ in 0..count {
        batches.push(Sequence::empty(alloc))?;
    }
    Ok(batches)
}

impl Batches {
    /// Returns the recipes of actions that cost less than `most`, in batches, and the rest.
    ///
    /// # Errors
    /// - `NoMemory`: there is no room for four numbers a price, one an action, and three for every
    ///   two places of what an action brings about.
    pub(crate) fn of(
        alloc: Global,
        most: usize,
        prices: &[u128],
        needs: &NumberRows,
        brings: &NumberRows,
    ) -> Result<Batches, NoMemory>
        requires needs { length prices.now ≤ length needs.now }
        requires brings { length prices.now ≤ length brings.now }
        ensures { IfOk result (λ b. AreBatches needs.now brings.now prices.now
            (length prices.now) b.recipes.items b.rest.items) }
    {
        let mut recipes = no_batches(alloc, most)?;
        let mut rest = Vec::new(alloc);
        for action in 0..prices.len() {
            let price = prices[action];
            let asked = needs.row(action);
            if price < most as u128 && 0 < asked.len() && asked.len() <= MOST_NEEDS {
                let brought = brings.row(action);
                add_recipes(alloc, &mut recipes, price as usize, asked, brought)?;
            } else {
                rest.push(action)?;
            }
        }
        Ok(Batches { recipes, rest })
    }
}
