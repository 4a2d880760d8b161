//! Words that have a bit for each lane.
ghost use Rattle.std.specs.Prelude.{◌≡◌, ℕ, ◌<◌, ◌||◌, ◌&&◌, true, Some, None, length, slice_index_or, if◌then◌else◌};
ghost use Rattle.std.specs.List.{All};
ghost use Rattle.hd_hmax.specs.Lanes.{bit, is_set, has_all, is_among};
ghost use Rattle.hd_hmax.specs.Batches.{asks_of, NeedsBelow, GivesBelow, is_given};

use crate::batches::Recipe;
use crate::{EstimateValue, LANES};

/// Returns the lanes that have all of these places.
#[inline(always)]
pub(crate) fn ready(table: &[u64], places: &[u32]) -> u64
    requires { All (λ p. p < length table.now) places.now }
    ensures { (j : ℕ) → j < 64 → bit result j ≡ has_all table.now j places.now }
{
    let mut lanes = u64::MAX;
    for place in places {
        lanes &= table[*place as usize];
    }
    lanes
}

/// Gives these places to lanes.
#[inline(always)]
fn give(table: &mut [u64], lanes: u64, places: &[u32])
    requires { All (λ p. p < length table.old) places.now }
    ensures { (p j : ℕ) → is_set table.new p j
        ≡ (is_set table.old p j || (is_among places.now p && bit lanes j)) }
{
    for place in places {
        table[*place as usize] |= lanes;
    }
}

/// Returns the lanes that have all that an action needs and lack some of what it brings about.
#[inline(always)]
pub(crate) fn unserved(table: &[u64], needs: &[u32], brings: &[u32]) -> u64
    requires needs { All (λ p. p < length table.now) needs.now }
    requires brings { All (λ p. p < length table.now) brings.now }
    ensures none { result ≡ 0 → (j : ℕ) → j < 64
        → has_all table.now j needs.now ≡ true → has_all table.now j brings.now ≡ true }
    ensures only { (j : ℕ) → j < 64
        → bit result j ≡ true → has_all table.now j needs.now ≡ true }
{
    ready(table, needs) & !ready(table, brings)
}

/// Gives places to lanes of a table that is owned.
#[inline(always)]
pub(crate) fn give_to(table: &mut Vec<u64>, lanes: u64, places: &[u32])
    requires { All (λ p. p < length table.old.items) places.now }
    ensures width { length table.new.items ≡ length table.old.items }
    ensures bits { (p j : ℕ) → is_set table.new.items p j
        ≡ (is_set table.old.items p j || (is_among places.now p && bit lanes j)) }
{
    give(table.as_mut_slice(), lanes, places);
}

/// Gives what an action brings about to the lanes that have all that it needs in the table `old`.
#[inline(always)]
pub(crate) fn take_action(table: &mut Vec<u64>, old: &[u64], needs: &[u32], brings: &[u32])
    requires needs { All (λ p. p < length old.now) needs.now }
    requires brings { All (λ p. p < length table.old.items) brings.now }
    ensures width { length table.new.items ≡ length table.old.items }
    ensures bits { (p j : ℕ) → j < 64 → is_set table.new.items p j
        ≡ (is_set table.old.items p j || (is_among brings.now p && has_all old.now j needs.now)) }
{
    give(table.as_mut_slice(), ready(old, needs), brings);
}

/// Returns the lanes that have all that a recipe needs.
#[inline(always)]
fn ready_for(table: &[u64], recipe: &Recipe) -> u64
    requires { NeedsBelow (length table.now) recipe.now }
    ensures { (j : ℕ) → bit result j ≡ has_all table.now j (asks_of recipe.now) }
{
    table[recipe.first as usize]
        & table[recipe.second as usize]
        & table[recipe.third as usize]
        & table[recipe.fourth as usize]
}

/// Gives what recipes bring about to the lanes that have all that these need in the table `old`.
fn follow(table: &mut [u64], old: &[u64], recipes: &[Recipe])
    requires needs { All (NeedsBelow (length old.now)) recipes.now }
    requires gives { All (GivesBelow (length table.old)) recipes.now }
    ensures { (p j : ℕ) → j < 64 → is_set table.new p j
        ≡ (is_set table.old p j || is_given recipes.now old.now p j) }
{
    for recipe in recipes {
        let lanes = ready_for(old, recipe);
        table[recipe.one as usize] |= lanes;
        table[recipe.other as usize] |= lanes;
    }
}

/// Gives what recipes bring about in a table that is owned.
#[inline(always)]
pub(crate) fn take_batch(table: &mut Vec<u64>, old: &[u64], recipes: &[Recipe])
    requires needs { All (NeedsBelow (length old.now)) recipes.now }
    requires gives { All (GivesBelow (length table.old.items)) recipes.now }
    ensures width { length table.new.items ≡ length table.old.items }
    ensures bits { (p j : ℕ) → j < 64 → is_set table.new.items p j
        ≡ (is_set table.old.items p j || is_given recipes.now old.now p j) }
{
    follow(table.as_mut_slice(), old, recipes);
}

/// Notes the same value of lanes.
pub(crate) fn note(values: &mut [Option<EstimateValue>; LANES], lanes: u64, value: EstimateValue)
    ensures { (j : ℕ) → j < 64 → slice_index_or values.new j None
        ≡ (if bit lanes j then Some value else slice_index_or values.old j None) }
{
    for lane in 0..LANES {
        if (lanes >> lane) & 1 == 1 {
            values[lane] = Some(value);
        }
    }
}
