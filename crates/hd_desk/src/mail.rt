//! The mailboxes of all workers.
ghost use Rattle.std.specs.Prelude.{◌≡◌, ℕ, ◌<◌, ◌≤◌, ◌++◌, Some, [], ◌∷◌, map, length, replicate, vec_capacity, slice_get, ◌-◌, IfOk, IfErr, IfSome, IfNone, OnOk, OnErr};
ghost use Rattle.std.specs.List.{AllByRecursion};
ghost use Rattle.std.specs.Option.{option_map};
ghost use Rattle.crossbeam_queue.specs.Passes.{view};
ghost use Rattle.hd_desk.specs.Mail.{post};
ghost use Rattle.hd_desk.specs.declared.rule.TheConstants.{ALL_PARTS};
ghost use Rattle.hd_desk.specs.Hands.{AreLined, IsHand, mailbox_name, post_of, changed_at, less_part, one_part, with_other, IsFor, AreShareable, HasAll, IsTallied, IsEvened, parts_of, parts_joined, joined, fresh_post, fresh_hands, put_into, taken_from, less_parts, one_parts, with_hands};

use crate::rule::{Cleared, MailPart, MailQueue, Named, Post, Put, Sent, Taken};
use crossbeam_queue::Pass;
use hd_base::NoMemory;
use std::alloc::Global;
use std::marker::Model;
use std::sync::Wait;

/// How many items a mailbox holds at most.
pub const MAILBOX_PLACES: usize = 1024;

/// A mailbox for each worker.
#[derive(Drop)]
pub struct Mailboxes<K, T: Sent<K>> {
    boxes: Vec<MailQueue<K, T>>,
}

impl<K, T: Sent<K>> Model for Mailboxes<K, T> {
    ghost use Rattle.std.specs.Prelude.{List, map};
    ghost use Rattle.std.specs.Coded.{coded_list};
    ghost use Rattle.atomic_table.specs.Seated.{TableId, table_id_coded};
    ghost use Rattle.hd_desk.specs.Hands.{mailbox_name};

    ghost Value = { List TableId };

    ghost coded = { coded_list table_id_coded };

    ghost view = { λ m. map mailbox_name m.boxes.items };
}

/// A thread's passes of all mailboxes, with which it puts items in and takes them out.
#[derive(Drop)]
pub struct Hands<'t, K, T: Sent<K>> {
    of: &'t K,
    passes: Vec<Pass<T, Post<K, T>>>,
}

impl<'t, K, T: Sent<K>> Model for Hands<'t, K, T> {
    ghost use Rattle.std.specs.Prelude.{map};
    ghost use Rattle.std.specs.List.{AllByRecursion};
    ghost use Rattle.hd_desk.specs.Hands.{HandsView, hands_code, post_of, IsHand};

    ghost Value = { HandsView K T };

    ghost coded = { hands_code K.code T.code };

    ghost view = { λ h. record { of = h.of.now; posts = map post_of h.passes.items } };

    ghost invariant = { λ h. AllByRecursion (IsHand h.of.now) h.passes.items };
}

/// Returns a mailbox that is empty, and the pass that has all parts of it. An item goes through it,
/// so that it is known what the items are of.
fn opened<K, T: Sent<K>, R: Wait>(
    rt: &R,
    alloc: Global,
    seed: T,
) -> Result<(MailQueue<K, T>, Pass<T, Post<K, T>>, T), NoMemory>
    ensures mailbox { IfOk result (λ r. r.1.table_id ≡ mailbox_name r.0) }
    ensures home { IfOk result (λ r. r.1.me.1 ≡ []) }
    ensures post { IfOk result (λ r. view r.1 ≡ post ALL_PARTS (Some (T.of seed)) [] []) }
    ensures seed { IfOk result (λ r. T.of r.2 ≡ T.of seed) }
{
    let (queue, mut pass) = MailQueue::ruled(alloc, MAILBOX_PLACES)?;
    match queue.push_as::<Named, R>(rt, &mut pass, seed) {
        Ok(()) => match queue.pop_as::<Cleared, R>(rt, &mut pass) {
            Some(seed) => Ok((queue, pass, seed)),
            None => unreachable!(),
        },
        Err(_) => unreachable!(),
    }
}

/// Splits a part off the pass of a mailbox, for another thread: a new pass with one part.
fn split<K, T: Sent<K>>(
    boxes: &Vec<MailQueue<K, T>>,
    passes: &mut Vec<Pass<T, Post<K, T>>>,
    number: usize,
) -> Pass<T, Post<K, T>>
    requires lined { AreLined boxes.now.items passes.old.items }
    requires there { number < length boxes.now.items }
    requires part { IfSome (slice_get (map post_of passes.old.items) number) (λ p. 1 < p.parts) }
    requires hands { (of : K) × AllByRecursion (IsHand of) passes.old.items }
    ensures left { map post_of passes.new.items
        ≡ changed_at number less_part (map post_of passes.old.items) }
    ensures new { option_map one_part (slice_get (map post_of passes.old.items) number)
        ≡ Some (post_of result) }
    ensures hands { (of : K) → AllByRecursion (IsHand of) passes.old.items
        → AllByRecursion (IsHand of) passes.new.items × IsHand of result }
{
    let pass = &mut passes[number];
    boxes[number].another::<MailPart>(pass)
}

/// Takes another pass of the same mailbox into the pass of it.
fn join<K, T: Sent<K>>(
    boxes: &Vec<MailQueue<K, T>>,
    passes: &mut Vec<Pass<T, Post<K, T>>>,
    number: usize,
    other: Pass<T, Post<K, T>>,
)
    requires lined { AreLined boxes.now.items passes.old.items }
    requires there { number < length boxes.now.items }
    requires name { option_map mailbox_name (slice_get boxes.now.items number)
        ≡ Some other.table_id }
    requires home { other.me.1 ≡ [] }
    requires hands { (of : K) × AllByRecursion (IsHand of) passes.old.items }
    ensures joined { map post_of passes.new.items
        ≡ changed_at number (with_other (post_of other)) (map post_of passes.old.items) }
    ensures hands { (of : K) → AllByRecursion (IsHand of) passes.old.items
        → AllByRecursion (IsHand of) passes.new.items }
{
    let pass = &mut passes[number];
    boxes[number].absorb::<MailPart>(pass, other);
}

/// Returns `count` empty mailboxes, and the passes that have all parts of them. `seed` reports what
/// all items are of.
fn open_all<K, T: Sent<K>, R: Wait>(
    rt: &R,
    alloc: Global,
    count: usize,
    seed: T,
) -> Result<(Vec<MailQueue<K, T>>, Vec<Pass<T, Post<K, T>>>), NoMemory>
    ensures count { IfOk result (λ r. length r.0.items ≡ count) }
    ensures posts { IfOk result (λ r. map post_of r.1.items
        ≡ map fresh_post (map mailbox_name r.0.items)) }
    ensures hands { IfOk result (λ r. AllByRecursion (IsHand (T.of seed)) r.1.items) }
{
    let mut boxes = Vec::new(alloc);
    let mut passes = Vec::new(alloc);
    let mut seed = seed;
    for _number in 0..count {
        let (queue, pass, same) = opened(rt, alloc, seed)?;
        boxes.push(queue)?;
        passes.push(pass)?;
        seed = same;
    }
    Ok((boxes, passes))
}

/// Splits a part off each pass, for another thread; there is room for the new ones.
fn split_passes<K, T: Sent<K>>(
    boxes: &Vec<MailQueue<K, T>>,
    passes: &mut Vec<Pass<T, Post<K, T>>>,
    new: &mut Vec<Pass<T, Post<K, T>>>,
)
    requires lined { AreLined boxes.now.items passes.old.items }
    requires parts { AllByRecursion (λ p. 1 < p.parts) (map post_of passes.old.items) }
    requires hands { (of : K) × AllByRecursion (IsHand of) passes.old.items }
    requires none { new.old.items ≡ [] }
    requires room { length boxes.now.items ≤ vec_capacity new.old }
    ensures left { map post_of passes.new.items ≡ map less_part (map post_of passes.old.items) }
    ensures new { map post_of new.new.items ≡ map one_part (map post_of passes.old.items) }
    ensures hands { (of : K) → AllByRecursion (IsHand of) passes.old.items
        → AllByRecursion (IsHand of) passes.new.items × AllByRecursion (IsHand of) new.new.items }
{
    for number in 0..boxes.len() {
        new.push_reserved(split(boxes, passes, number));
    }
}

/// Takes other passes into those of the same mailboxes.
fn join_all<K, T: Sent<K>>(
    boxes: &Vec<MailQueue<K, T>>,
    passes: &mut Vec<Pass<T, Post<K, T>>>,
    others: Vec<Pass<T, Post<K, T>>>,
)
    requires lined { AreLined boxes.now.items passes.old.items }
    requires others_lined { AreLined boxes.now.items others.items }
    requires hands { (of : K) × AllByRecursion (IsHand of) passes.old.items }
    requires others_hands { (of : K) × AllByRecursion (IsHand of) others.items }
    ensures joined { map post_of passes.new.items
        ≡ joined (map post_of passes.old.items) (map post_of others.items) }
    ensures hands { (of : K) → AllByRecursion (IsHand of) passes.old.items
        → AllByRecursion (IsHand of) passes.new.items }
{
    let mut others = others;
    while let Some(other) = others.pop() {
        join(boxes, passes, others.len(), other);
    }
}

impl<K, T: Sent<K>> Mailboxes<K, T> {
    /// Puts an item into a mailbox.
    ///
    /// # Errors
    /// - The item, where the mailbox is full, or another thread is in the way: nothing was put in.
    pub fn push(&self, hands: &mut Hands<K, T>, to: usize, item: T) -> Result<(), T>
        requires of { IsFor self.now hands.old }
        requires there { to < length self.now }
        requires fits { T.of item ≡ hands.old.of }
        ensures put { OnOk result (hands.new ≡ put_into to item hands.old) }
        ensures back { IfErr result (λ x. x ≡ item) }
        ensures err { OnErr result (hands.new ≡ hands.old) }
        ensures of { IsFor self.now hands.new }
        ensures same { hands.new.of ≡ hands.old.of }
        ensures parts { parts_of hands.new ≡ parts_of hands.old }
    {
        let pass = &mut hands.passes[to];
        self.boxes[to].try_push_as::<Put>(pass, item)
    }

    /// Takes the oldest item out of a mailbox; none where it is empty, or another thread is in the
    /// way.
    pub fn pop(&self, hands: &mut Hands<K, T>, from: usize) -> Option<T>
        requires of { IsFor self.now hands.old }
        requires there { from < length self.now }
        ensures taken { IfSome result (λ x. hands.new ≡ taken_from from x hands.old) }
        ensures fits { IfSome result (λ x. T.of x ≡ hands.old.of) }
        ensures none { IfNone result (hands.new ≡ hands.old) }
        ensures of { IsFor self.now hands.new }
        ensures same { hands.new.of ≡ hands.old.of }
        ensures parts { parts_of hands.new ≡ parts_of hands.old }
    {
        let pass = &mut hands.passes[from];
        self.boxes[from].try_pop_as::<Taken>(pass)
    }

    /// Returns `count` empty mailboxes, and the hands that have all parts of them. `seed` reports
    /// what all items are of; it is not put into any.
    ///
    /// # Errors
    /// - `NoMemory`: there is no room for them.
    pub fn new<'t, R: Wait>(
        rt: &R,
        alloc: Global,
        count: usize,
        of: &'t K,
        seed: T,
    ) -> Result<(Mailboxes<K, T>, Hands<'t, K, T>), NoMemory>
        requires fits { T.of seed ≡ of.now }
        ensures count { IfOk result (λ r. length r.0 ≡ count) }
        ensures hands { IfOk result (λ r. r.1 ≡ fresh_hands of.now r.0) }
        ensures of { IfOk result (λ r. IsFor r.0 r.1) }
        ensures parts { IfOk result (λ r. parts_of r.1 ≡ replicate count ALL_PARTS) }
    {
        let (boxes, passes) = open_all(rt, alloc, count, seed)?;
        Ok((Mailboxes { boxes }, Hands { of, passes }))
    }

    /// Passes of all mailboxes with one part each, for another thread.
    ///
    /// # Errors
    /// - `NoMemory`: there is no room for them: nothing has changed.
    pub fn share<'t>(
        &self,
        alloc: Global,
        hands: &mut Hands<'t, K, T>,
    ) -> Result<Hands<'t, K, T>, NoMemory>
        requires of { IsFor self.now hands.old }
        requires parts { AreShareable hands.old }
        ensures left { OnOk result (hands.new ≡ less_parts hands.old) }
        ensures new { IfOk result (λ h. h ≡ one_parts hands.old) }
        ensures err { OnErr result (hands.new ≡ hands.old) }
        ensures of { IsFor self.now hands.new }
        ensures new_of { IfOk result (λ h. IsFor self.now h) }
        ensures parts { OnOk result (parts_of hands.new ≡ map (λ n. n - 1) (parts_of hands.old)) }
        ensures new_parts { IfOk result (λ h. parts_of h ≡ map (λ _. 1) (parts_of hands.old)) }
    {
        let mut passes = Vec::with_capacity(alloc, self.boxes.len())?;
        split_passes(&self.boxes, &mut hands.passes, &mut passes);
        Ok(Hands {
            of: hands.of,
            passes,
        })
    }

    /// Takes in another thread's passes, with what they have put and taken.
    pub fn absorb(&self, hands: &mut Hands<K, T>, others: Hands<K, T>)
        requires of { IsFor self.now hands.old }
        requires others { IsFor self.now others }
        ensures joined { hands.new ≡ with_hands others.entry hands.old }
        ensures of { IsFor self.now hands.new }
        ensures parts { parts_of hands.new
            ≡ parts_joined (parts_of hands.old) (parts_of others.entry) }
    {
        let Hands { of: _, passes } = others;
        join_all(&self.boxes, &mut hands.passes, passes);
    }

    /// Takes the oldest item out of a mailbox of which these hands have all parts. Where there is
    /// none, all that was put in was taken out, each item as often.
    pub fn pop_last<R: Wait>(&self, rt: &R, hands: &mut Hands<K, T>, from: usize) -> Option<T>
        requires of { IsFor self.now hands.old }
        requires there { from < length self.now }
        requires all { HasAll from hands.old }
        ensures taken { IfSome result (λ x. hands.new ≡ taken_from from x hands.old) }
        ensures fits { IfSome result (λ x. T.of x ≡ hands.old.of) }
        ensures none { IfNone result (hands.new ≡ hands.old) }
        ensures evened { IfNone result (IfSome (slice_get hands.old.posts from) IsEvened) }
        ensures of { IsFor self.now hands.new }
        ensures same { hands.new.of ≡ hands.old.of }
        ensures parts { parts_of hands.new ≡ parts_of hands.old }
    {
        let pass = &mut hands.passes[from];
        self.boxes[from].pop_as::<Taken, R>(rt, pass)
    }

    /// Shows that what was put into mailbox `from` is what was taken out and what is left, each
    /// item as often: `hands` have all parts of it.
    pub fn tally(&self, hands: &mut Hands<K, T>, from: usize)
        requires of { IsFor self.now hands.old }
        requires there { from < length self.now }
        requires all { HasAll from hands.old }
        ensures same { hands.new ≡ hands.old }
        ensures tallied { IfSome (slice_get hands.old.posts from) IsTallied }
    {
        let pass = &mut hands.passes[from];
        self.boxes[from].learn_as::<Taken>(pass);
    }
}
