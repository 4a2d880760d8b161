//! The lock.
ghost use Rattle.std.specs.Prelude.{◌≡◌, ◌+◌, ◌<◌, false, All, IfOk, IfNone, IfSome, Some};
ghost use Rattle.crossbeam_queue.specs.Passes.{view, ruled_capacity};
ghost use Rattle.hd_desk.specs.declared.rule.TheConstants.{ALL_PARTS};
ghost use Rattle.hd_desk.specs.Passes.{IsOutside, IsInside, parts_in, IsSeenIn, AreSeenIn};
ghost use Rattle.hd_desk.specs.Views.{opened, entered, left, less_one, another_of};
ghost use Rattle.hd_base.specs.Lists.{BeginsWith};

use crate::locked::Locked;
use crate::plays::{Enters, Gathers, Leaves, Looks, OnePlace, Opens, Parts};
use crate::view::View;
use crossbeam_queue::RuledArrayQueue;
use std::alloc::{AllocError, Global};
use std::sync::Wait;
use std::{hint, thread};

/// How often a lock that is taken is tried again before other threads are let run.
const TRIES: u32 = 64;

/// How often the processor is told between two tries that it only waits: some two microseconds.
const HINTS: u32 = 32;

/// Waits between two tries of a lock, by how often it was tried before. A lock is held for some
/// tens of microseconds, and who lets other threads run may wait for milliseconds before it runs
/// again; so that is done only where the lock stays taken, maybe by a thread that waits for a
/// processor itself.
fn wait_a_little(tried: u32) {
    if tried < TRIES {
        for _hint in 0..HINTS {
            hint::spin_loop();
        }
    } else {
        thread::yield_now();
    }
}

/// What one user of a lock knows of it. It has no bytes.
pub type Pass<B> = crossbeam_queue::Pass<B, View<<B as Locked>::Task, <B as Locked>::Item>>;

/// A lock that holds one value.
#[derive(Drop)]
pub struct Lock<B: Locked> {
    place: RuledArrayQueue<B, View<B::Task, B::Item>, OnePlace>,
    ghost one: { ruled_capacity place ≡ 1 },
}

impl<B: Locked> Lock<B> {
    /// Returns a lock that is free and holds the value, with a pass that has every part and has
    /// seen the value.
    ///
    /// # Errors
    /// - Lack of memory.
    pub fn open<R: Wait>(rt: &R, alloc: Global, value: B) -> Result<(Lock<B>, Pass<B>), AllocError>
        ensures pass { IfOk result (λ r. IsOutside r.0.place r.1) }
        ensures view { IfOk result (λ r. view r.1 ≡ opened (B.task value) (B.log value)) }
    {
        let (place, mut pass) = RuledArrayQueue::<B, View<B::Task, B::Item>, OnePlace>::ruled(
            alloc, 1,
        )?;
        match place.push_as::<Opens, R>(rt, &mut pass, value) {
            Ok(()) => Ok((Lock { place }, pass)),
            Err(_) => unreachable!(),
        }
    }

    /// Takes the value, if the lock is free. It does not wait where the lock is taken.
    pub fn try_enter<R: Wait>(&self, rt: &R, pass: &mut Pass<B>) -> Option<B>
        requires { IsOutside self.now.place pass.old }
        ensures pass { IfSome result (λ _. IsInside self.now.place pass.new) }
        ensures task { IfSome result (λ b. (view pass.old).seen.task ≡ Some (B.task b)) }
        ensures begins { IfSome result (λ b. BeginsWith (B.log b) (view pass.old).seen.log) }
        ensures view { IfSome result (λ b.
            view pass.new ≡ entered (view pass.old) (B.task b) (B.log b)) }
        ensures outside { IfNone result (IsOutside self.now.place pass.new) }
        ensures same { IfNone result (view pass.new ≡ view pass.old) }
    {
        self.place.pop_as::<Enters, R>(rt, pass)
    }

    /// Reports whether the lock was taken at a moment of the call. Another thread may take it, or
    /// give the value back, before this one acts on the answer: it reports whether a try is worth
    /// while. A lock that no other pass can take is not taken.
    pub fn is_taken(&self, pass: &mut Pass<B>) -> bool
        requires { IsOutside self.now.place pass.old }
        ensures outside { IsOutside self.now.place pass.new }
        ensures same { view pass.new ≡ view pass.old }
        ensures alone { (view pass.old).parts ≡ ALL_PARTS → result ≡ false }
    {
        self.place.is_empty_as::<Looks>(pass)
    }

    /// Waits until the lock is free, and takes the value.
    pub fn enter<R: Wait>(&self, rt: &R, pass: &mut Pass<B>) -> B
        requires { IsOutside self.now.place pass.old }
        ensures pass { IsInside self.now.place pass.new }
        ensures task { (view pass.old).seen.task ≡ Some (B.task result) }
        ensures begins { BeginsWith (B.log result) (view pass.old).seen.log }
        ensures view { view pass.new ≡ entered (view pass.old) (B.task result) (B.log result) }
    {
        let mut tried = 0u32;
        for _ in rt.forever() {
            if let Some(value) = self.try_enter(rt, pass) {
                return value;
            }
            wait_a_little(tried);
            tried = tried.saturating_add(1);
        }
        unreachable!()
    }

    /// Gives the value back, with which the lock is free.
    pub fn leave<R: Wait>(&self, rt: &R, pass: &mut Pass<B>, value: B)
        requires pass { IsInside self.now.place pass.old }
        requires task { (view pass.old).seen.task ≡ Some (B.task value) }
        requires begins { BeginsWith (B.log value) (view pass.old).seen.log }
        ensures pass { IsOutside self.now.place pass.new }
        ensures view { view pass.new ≡ left (view pass.old) (B.task value) (B.log value) }
    {
        match self.place.push_as::<Leaves, R>(rt, pass, value) {
            Ok(()) => {}
            Err(_) => unreachable!(),
        }
    }

    /// Returns a further pass for a further user, with one of this pass's parts. It has seen what
    /// this one has.
    pub fn another(&self, pass: &mut Pass<B>) -> Pass<B>
        requires pass { IsOutside self.now.place pass.old }
        requires parts { 1 < (view pass.old).parts }
        ensures old { IsOutside self.now.place pass.new }
        ensures new { IsOutside self.now.place result }
        ensures old_view { view pass.new ≡ less_one (view pass.old) }
        ensures new_view { view result ≡ another_of (view pass.old) }
    {
        self.place.another::<Parts>(pass)
    }

    /// Returns the value, from a lock that nobody uses any more: all its passes are handed in. It
    /// waits for no other thread.
    pub fn gather<R: Wait>(self, rt: &R, pass: Pass<B>, passes: Vec<Pass<B>>) -> B
        requires pass { IsOutside self.place pass }
        requires passes { All (IsOutside self.place) passes.items }
        requires parts { (view pass).parts + parts_in passes.items ≡ ALL_PARTS }
        ensures seen { IsSeenIn (B.task result) (B.log result) pass }
        ensures all_seen { All (IsSeenIn (B.task result) (B.log result)) passes.items }
    {
        let mut all = pass;
        for other in passes {
            self.place.absorb::<Parts>(&mut all, other);
        }
        self.take_back(rt, all)
    }

    // The value, for the pass that has every part: it lies in the queue.
    fn take_back<R: Wait>(&self, rt: &R, mut pass: Pass<B>) -> B
        requires pass { IsOutside self.now.place pass }
        requires parts { (view pass).parts ≡ ALL_PARTS }
        ensures seen { IsSeenIn (B.task result) (B.log result) pass }
        ensures told { AreSeenIn (B.task result) (B.log result) (view pass).told }
    {
        match self.place.pop_as::<Gathers, R>(rt, &mut pass) {
            Some(value) => value,
            None => unreachable!(),
        }
    }
}
