//! What is noted of each state, and how a state's note is found by its hash.
ghost use Rattle.std.specs.Prelude.{◌≡◌, ℕ, ◌<◌, ◌≤◌, ◌++◌, List, [], ◌∷◌, None, Some, true, false, length, vec_len, vec_capacity, slice_get, slice_set, IfOk, IfSome, IfNone, OnOk, OnErr};
ghost use Rattle.hd_task.specs.declared.state.State.{State};
ghost use Rattle.hd_zobrist.specs.Hash.{state_hash};
ghost use Rattle.hd_tables.specs.Widths.{HasWidths};
ghost use Rattle.hd_closed.specs.Notes.{note_of, bucket_at, bucket_head, AreAlike, AreNotesOf, AreChained, IsTable};

use crate::short::{Known, MAX_PLACES, ShortPlace};
use hd_base::NoMemory;
use hd_node::Hashed;
use hd_tables::RowBlocks;
use std::alloc::{AllocError, Global};

/// What is known of a state.
#[derive(Debug, Drop)]
pub(crate) struct Note {
    /// The state's hash.
    pub(crate) hash: u64,
    /// The value of its estimate, once that is known, if it has at most 64 bits.
    pub(crate) value: Known,
    /// The place of its cheapest expansion in the closed list, if it has one.
    pub(crate) least: ShortPlace,
    /// The place of the note before this one whose state is in the same bucket.
    before: ShortPlace,
}

/// Returns the bucket of a hash, of so many, by the upper half of its bits. The lowest ones tell
/// which worker owns the state where the number of workers is a power of two: since that of the
/// buckets is one too, the states of one of four workers, say, would all be in a quarter of them.
fn bucket_of(hash: u64, buckets: usize) -> usize
    requires { 0 < buckets }
    ensures value { result ≡ bucket_at hash buckets }
    ensures within { result < buckets }
{
    (hash / (1 << 32) % buckets as u64) as usize
}

/// Returns the place that the bucket of a hash has.
#[tactic(auto, using(crate::proofs::Chains::head_read))]
fn head_of(heads: &[ShortPlace], hash: u64) -> Option<usize>
    requires { 0 < length heads.now }
    ensures { result ≡ bucket_head heads.now (bucket_at hash (length heads.now)) }
{
    let bucket = bucket_of(hash, heads.len());
    heads[bucket].get()
}

/// Puts a place into the bucket of a hash, and gives the one that was there.
#[tactic(auto, using(crate::proofs::Chains::head_read))]
fn link(heads: &mut Vec<ShortPlace>, hash: u64, place: usize) -> ShortPlace
    requires some { 0 < length heads.old.items }
    requires few { place < MAX_PLACES }
    ensures heads { heads.new.items
        ≡ slice_set heads.old.items (bucket_at hash (length heads.old.items)) (Some place) }
    ensures before { result
        ≡ bucket_head heads.old.items (bucket_at hash (length heads.old.items)) }
{
    let bucket = bucket_of(hash, heads.len());
    let before = heads[bucket].copied();
    heads[bucket] = ShortPlace::of(place);
    before
}

/// Chains notes again, by buckets that are empty.
fn link_all(notes: &mut Vec<Note>, heads: &mut Vec<ShortPlace>)
    requires some { 0 < length heads.old.items }
    requires few { length notes.old.items ≤ MAX_PLACES }
    requires empty { (b : ℕ) → bucket_head heads.old.items b ≡ None }
    ensures alike { AreAlike notes.old.items notes.new.items }
    ensures len { length heads.new.items ≡ length heads.old.items }
    ensures chained { (states : List State) → AreNotesOf states notes.old.items
        → AreChained states notes.new.items heads.new.items (length notes.old.items) }
{
    for place in 0..notes.len() {
        let hash = notes[place].hash;
        let before = link(heads, hash, place);
        notes[place].before = before;
    }
}

/// Returns `count` empty buckets.
///
/// # Errors
/// - `NoMemory`: there is no room for them.
fn buckets_of(alloc: Global, count: usize) -> Result<Vec<ShortPlace>, NoMemory>
    ensures len { IfOk result (λ v. length v.items ≡ count) }
    ensures empty { IfOk result (λ v. (b : ℕ) → bucket_head v.items b ≡ None) }
{
    let mut buckets = Vec::with_capacity(alloc, count)?;
    while buckets.len() < count {
        buckets.push(ShortPlace::none())?;
    }
    Ok(buckets)
}

/// Makes a bucket for one note more: as many again as there are, if there are as many notes.
///
/// # Errors
/// - `NoMemory`: there is no room for them.
#[tactic(auto, using(crate::proofs::Chains::alike_same))]
fn cover(
    alloc: Global,
    rows: &RowBlocks,
    notes: &mut Vec<Note>,
    heads: &mut Vec<ShortPlace>,
) -> Result<(), NoMemory>
    requires table { IsTable rows.now.states notes.old.items heads.old.items }
    requires few { length notes.old.items < MAX_PLACES }
    ensures alike { AreAlike notes.old.items notes.new.items }
    ensures table { IsTable rows.now.states notes.new.items heads.new.items }
    ensures room { OnOk result (length notes.new.items < length heads.new.items) }
{
    if notes.len() < heads.len() {
        return Ok(());
    }
    let mut grown = buckets_of(alloc, (2 * notes.len()).max(16))?;
    link_all(notes, &mut grown);
    *heads = grown;
    Ok(())
}

/// Reports whether this state stands at a place. One of another hash does not.
fn stands(rows: &RowBlocks, place: usize, noted: u64, state: &Hashed) -> bool
    requires place { place < length rows.now.states }
    requires hash { slice_get rows.now.states place ≡ Some state.now
        → noted ≡ state_hash state.now }
    ensures yes { result ≡ true → slice_get rows.now.states place ≡ Some state.now }
    ensures no { result ≡ false → slice_get rows.now.states place ≡ Some state.now → ⊥ }
{
    noted == state.hash() && rows.is(place, state.state())
}

/// Returns the place of a state's note.
pub(crate) fn find(
    rows: &RowBlocks,
    notes: &[Note],
    heads: &[ShortPlace],
    state: &Hashed,
) -> Option<usize>
    requires { IsTable rows.now.states notes.now heads.now }
    ensures found { IfSome result (λ k. slice_get rows.now.states k ≡ Some state.now) }
    ensures none { IfNone result ((k : ℕ) → slice_get rows.now.states k ≡ Some state.now → ⊥) }
{
    if heads.is_empty() {
        return None;
    }
    let mut next = head_of(heads, state.hash());
    while let Some(place) = next {
        let note = &notes[place];
        if stands(rows, place, note.hash, state) {
            return Some(place);
        }
        next = note.before.get();
    }
    None
}

/// Adds one note more, of a state of which nothing is known yet.
fn push_note(notes: &mut Vec<Note>, heads: &mut Vec<ShortPlace>, hash: u64)
    requires room { vec_len notes.old < vec_capacity notes.old }
    requires few { length notes.old.items < MAX_PLACES }
    requires bucket { length notes.old.items < length heads.old.items }
    ensures notes { AreAlike (notes.old.items ++ note_of hash None ∷ []) notes.new.items }
    ensures table { (states : List State) (s : State)
        → IsTable states notes.old.items heads.old.items → state_hash s ≡ hash
        → IsTable (states ++ s ∷ []) notes.new.items heads.new.items }
{
    let before = link(heads, hash, notes.len());
    let note = Note {
        hash,
        value: Known::none(),
        least: ShortPlace::none(),
        before,
    };
    match notes.push(note) {
        Ok(()) => {}
        Err(_) => unreachable!(),
    }
}

/// Adds one state more, of which nothing is known yet.
///
/// # Errors
/// - Lack of memory; no state has come.
#[tactic(auto, using(crate::proofs::Chains::alike_same))]
pub(crate) fn add(
    alloc: Global,
    rows: &mut RowBlocks,
    notes: &mut Vec<Note>,
    heads: &mut Vec<ShortPlace>,
    state: &Hashed,
) -> Result<(), NoMemory>
    requires table { IsTable rows.old.states notes.old.items heads.old.items }
    requires widths { HasWidths rows.old.widths state.now }
    ensures widths { rows.new.widths ≡ rows.old.widths }
    ensures states { OnOk result (rows.new.states ≡ rows.old.states ++ state.now ∷ []) }
    ensures notes { OnOk result (AreAlike
        (notes.old.items ++ note_of (state_hash state.now) None ∷ []) notes.new.items) }
    ensures err { OnErr result (rows.new.states ≡ rows.old.states) }
    ensures same { OnErr result (AreAlike notes.old.items notes.new.items) }
    ensures table { IsTable rows.new.states notes.new.items heads.new.items }
{
    if notes.len() >= MAX_PLACES {
        return Err(AllocError);
    }
    cover(alloc, rows, notes, heads)?;
    notes.reserve(1)?;
    rows.reserve(1)?;
    rows.push(state.state());
    push_note(notes, heads, state.hash());
    Ok(())
}

/// Returns how many notes have an estimate.
pub(crate) fn count_estimated(notes: &[Note]) -> u64 {
    let mut count = 0u64;
    for note in notes {
        count = count.saturating_add(u64::from(note.value.get().is_some()));
    }
    count
}
