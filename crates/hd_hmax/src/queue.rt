//! Rules that can be taken, with what they cost: the cheapest comes first.
ghost use Rattle.std.specs.Prelude.{◌≡◌, ◌+◌, ◌-◌, ◌<◌, ◌≤◌, ◌++◌, ◌∷◌, [], IfNone, IfOk, IfSome, IsPermutation, true, false, length, vec_capacity, vec_len};
ghost use Rattle.std.specs.BinaryHeap.{IsHeap, heap_capacity, heap_items, heap_len};
ghost use Rattle.std.proofs.Props.{props};
ghost use Rattle.hd_hmax.specs.Queue.{ready, by_cost, IsSortedRow, IsNextRule, IsLate, WaitsIn, IsPushed, IsPopped, IsEmpty};

use hd_base::NoMemory;
use std::alloc::Global;
use std::cmp::Reverse;
use std::collections::BinaryHeap;

/// Rules that can be taken, with what they cost.
///
/// Most come in the order of their costs: they stand in a row, the others in a heap.
#[derive(Debug, Drop)]
pub(crate) struct RuleQueue {
    /// Rules in the order of their costs; those before `taken` were taken out.
    run: Vec<Reverse<(u128, u32)>>,
    taken: usize,
    /// No rule of the row costs more.
    last: u128,
    heap: BinaryHeap<Reverse<(u128, u32)>>,
    // The row is in order.
    ghost rises: { IsSortedRow run.items last },
    // No more were taken out than there were.
    ghost within: { taken ≤ length run.items },
    // The heap is in order.
    ghost ordered: { IsHeap by_cost (heap_items heap) } by { Prim.hlevel props },
}

/// Pushes to a row that has room.
#[inline(always)]
fn push_reserved(run: &mut Vec<Reverse<(u128, u32)>>, item: Reverse<(u128, u32)>)
    requires { vec_len run.old < vec_capacity run.old }
    ensures items { run.new.items ≡ run.old.items ++ item ∷ [] }
    ensures len { vec_len run.new ≡ vec_len run.old + 1 }
    ensures capacity { vec_capacity run.old ≤ vec_capacity run.new }
{
    match run.push(item) {
        Ok(()) => {}
        Err(_) => unreachable!(),
    }
}

/// Pushes to a heap that has room.
fn push_late(heap: &mut BinaryHeap<Reverse<(u128, u32)>>, item: Reverse<(u128, u32)>)
    requires room { heap_len heap.old < heap_capacity heap.old }
    requires ordered { IsHeap by_cost (heap_items heap.old) }
    ensures ordered { IsHeap by_cost (heap_items heap.new) }
    ensures items { IsPermutation (item ∷ heap_items heap.old) (heap_items heap.new) }
    ensures len { heap_len heap.new ≡ heap_len heap.old + 1 }
    ensures capacity { heap_capacity heap.old ≤ heap_capacity heap.new }
{
    match heap.push(item) {
        Ok(()) => {}
        Err(_) => unreachable!(),
    }
}

impl RuleQueue {
    /// Returns a queue with room for so many rules.
    ///
    /// # Errors
    /// - `NoMemory`: there is no room for twice as many.
    pub(crate) fn new(alloc: Global, room: usize) -> Result<RuleQueue, NoMemory>
        ensures run { IfOk result (λ q. room ≤ vec_capacity q.run) }
        ensures heap { IfOk result (λ q. room ≤ heap_capacity q.heap) }
    {
        let run = Vec::with_capacity(alloc, room)?;
        let heap = BinaryHeap::with_capacity(alloc, room)?;
        Ok(RuleQueue {
            run,
            taken: 0,
            last: 0,
            heap,
        })
    }

    /// Leaves no rule in it.
    pub(crate) fn drop_rules(&mut self)
        ensures empty { IsEmpty (WaitsIn self.new.run.items self.new.taken
            (heap_items self.new.heap)) }
        ensures len { vec_len self.new.run ≡ 0 }
        ensures late { heap_len self.new.heap ≡ 0 }
        ensures capacity { vec_capacity self.new.run ≡ vec_capacity self.old.run }
        ensures heap_capacity { heap_capacity self.new.heap ≡ heap_capacity self.old.heap }
    {
        self.run.clear();
        self.taken = 0;
        self.last = 0;
        self.heap.clear();
    }

    /// Puts a rule into it. It does not allocate, since there is room.
    #[inline(always)]
    pub(crate) fn push(&mut self, cost: u128, rule: u32)
        requires room { vec_len self.old.run < vec_capacity self.old.run }
        requires late { heap_len self.old.heap < heap_capacity self.old.heap }
        ensures pushed { IsPushed (WaitsIn self.old.run.items self.old.taken
            (heap_items self.old.heap)) (ready cost rule)
            (WaitsIn self.new.run.items self.new.taken (heap_items self.new.heap)) }
        ensures taken { self.new.taken ≡ self.old.taken }
        ensures len { vec_len self.new.run + heap_len self.new.heap
            ≡ vec_len self.old.run + heap_len self.old.heap + 1 }
        ensures run { vec_len self.old.run ≤ vec_len self.new.run }
        ensures heap { heap_len self.old.heap ≤ heap_len self.new.heap }
        ensures capacity { vec_capacity self.old.run ≤ vec_capacity self.new.run }
        ensures heap_capacity { heap_capacity self.old.heap ≤ heap_capacity self.new.heap }
    {
        if cost < self.last {
            push_late(&mut self.heap, Reverse((cost, rule)));
        } else {
            self.last = cost;
            push_reserved(&mut self.run, Reverse((cost, rule)));
        }
    }

    /// Reports whether the next rule of the row is there, and costs no more than any of the heap.
    #[inline(always)]
    fn is_next_in_run(&self) -> bool
        ensures yes { result ≡ true → IsNextRule self.now.run.items self.now.taken
            (heap_items self.now.heap) }
        ensures no { result ≡ false → IsLate self.now.run.items self.now.taken
            (heap_items self.now.heap) }
    {
        if self.taken >= self.run.len() {
            return false;
        }
        match self.heap.peek() {
            None => true,
            Some(Reverse((cost, _))) => {
                let Reverse((next, _)) = self.run[self.taken];
                next <= *cost
            }
        }
    }

    /// Takes the cheapest rule out of it, with its cost.
    #[inline(always)]
    pub(crate) fn pop(&mut self) -> Option<(u128, u32)>
        ensures none { IfNone result (IsEmpty (WaitsIn self.old.run.items self.old.taken
            (heap_items self.old.heap))) }
        ensures popped { IfSome result (λ x. IsPopped (WaitsIn self.old.run.items
            self.old.taken (heap_items self.old.heap)) (ready x.0 x.1)
            (WaitsIn self.new.run.items self.new.taken (heap_items self.new.heap))) }
        ensures less { IfSome result (λ _. vec_len self.new.run - self.new.taken
            + heap_len self.new.heap + 1
            ≡ vec_len self.old.run - self.old.taken + heap_len self.old.heap) }
        ensures run { vec_len self.new.run ≡ vec_len self.old.run }
        ensures late { heap_len self.new.heap ≤ heap_len self.old.heap }
        ensures capacity { vec_capacity self.new.run ≡ vec_capacity self.old.run }
        ensures heap { heap_capacity self.new.heap ≡ heap_capacity self.old.heap }
    {
        if self.is_next_in_run() {
            let Reverse(cheapest) = self.run[self.taken];
            self.taken += 1;
            return Some(cheapest);
        }
        let Reverse(cheapest) = self.heap.pop()?;
        Some(cheapest)
    }
}
