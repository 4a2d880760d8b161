//! Laws over the definitions. Each function does nothing: its contract is the law.
ghost use Rattle.std.specs.Prelude.{◌≡◌, ◌⊎◌, ◌<◌, ℕ, Option, Some, None, List, [], length, slice_get};
ghost use Rattle.std.specs.List.{AllByRecursion};
ghost use Rattle.hd_task.specs.declared.plan.TheConstants.{ROOT_PARENT};
ghost use Rattle.hd_task.specs.declared.state.State.{State};
ghost use Rattle.hd_task.specs.Plans.{node};
ghost use Rattle.hd_hmax.specs.Rounds.{hmax};
ghost use Rattle.hd_entries.specs.declared.refusal.Refusal.TheVariants.{SettledBefore};
ghost use Rattle.hd_entries.specs.Settling.{BookState, IsBookKept, node_by, first_refusal, all_settled};
ghost use Rattle.hd_node.specs.declared.batch.By.TheVariants.{Entry};
ghost use Rattle.hd_entries.specs.Holding.{Released, released_by};
ghost use Rattle.hd_turns.specs.Worker.{WorkerView, empty_worker};
ghost use Rattle.hd_turns.specs.Growth.{Grows};
ghost use Rattle.hd_turns.specs.Truth.{IsTrueParcel, IsSeenOf, IsTrueWorker};
ghost use Rattle.hd_turns.specs.Calls.{with_parcel, Expands, ExpandsBest, batch_of, after_batch, after_numbering, with_room_for, after_releasing, after_sending, after_return, after_seeing, after_closing};

/// Law: where all that a worker holds is true of a book, the book refuses a batch of its first
/// outcomes for nothing that the batch says: for no parent that is unknown, no successor that is
/// none, no state or cost that differs, no expansion that does not dominate, and no bound that is
/// not reached. What is left is that a successor was settled before.
pub fn batches_are_admissible()
    ensures { (b : BookState) (w : WorkerView) → IsTrueWorker b w
        → (first_refusal b [] (batch_of w) ≡ None)
        ⊎ (first_refusal b [] (batch_of w) ≡ Some SettledBefore) }
{}

/// Law: a worker that holds nothing is true of each book of its task, and each call leaves it true:
/// a parcel that is taken or put back, parcels that are released, a bound that is seen and an entry
/// that is closed are to be true of the book themselves.
pub fn calls_stay_true()
    ensures empty { (b : BookState) (id workers : ℕ)
        → IsTrueWorker b (empty_worker b.task id workers) }
    ensures take { (b : BookState) (w : WorkerView) (r : Released)
        → IsTrueWorker b w → IsTrueParcel b r → IsTrueWorker b (with_parcel r w) }
    ensures expand { (b : BookState) (w w' : WorkerView) (pick : ℕ)
        → IsTrueWorker b w → Expands b.task (hmax b.task) pick w w' → IsTrueWorker b w' }
    ensures expand_best { (b : BookState) (w w' : WorkerView)
        → IsTrueWorker b w → ExpandsBest b.task w w' → IsTrueWorker b w' }
    ensures room { (b : BookState) (w : WorkerView) (count : ℕ)
        → IsTrueWorker b w → IsTrueWorker b (with_room_for count w) }
    ensures released { (b : BookState) (w : WorkerView) (rs : List Released)
        → IsTrueWorker b w → AllByRecursion (IsTrueParcel b) rs
        → IsTrueWorker b (after_releasing rs w) }
    ensures sent { (b : BookState) (w : WorkerView)
        → IsTrueWorker b w → IsTrueWorker b (after_sending w) }
    ensures sends { (b : BookState) (w : WorkerView) (r : Released)
        → IsTrueWorker b w → slice_get w.outbox 0 ≡ Some r → IsTrueParcel b r }
    ensures put_back { (b : BookState) (w : WorkerView) (r : Released)
        → IsTrueWorker b w → IsTrueParcel b r → IsTrueWorker b (after_return r w) }
    ensures see { (b : BookState) (w : WorkerView) (bound : Option ℕ)
        → IsTrueWorker b w → IsSeenOf b bound → IsTrueWorker b (after_seeing bound w) }
    ensures close { (b : BookState) (w : WorkerView) (n : ℕ) (s : State) (cost : ℕ)
        → IsTrueWorker b w → node_by b [] (Entry n) ≡ Some (node s cost)
        → IsTrueWorker b (after_closing n s cost w) }
{}

/// Law: where the book accepts a worker's batch, and this is numbered from the number of the book's
/// entries before it on, the worker is true of the book afterwards, and so is each parcel that the
/// batch releases.
pub fn commits_stay_true()
    ensures worker { (b : BookState) (w : WorkerView) → IsBookKept b → IsTrueWorker b w
        → first_refusal b [] (batch_of w) ≡ None
        → length (all_settled b (batch_of w)).entries < ROOT_PARENT
        → IsTrueWorker (all_settled b (batch_of w))
        (after_numbering (length b.entries) (after_batch w)) }
    ensures released { (b : BookState) (w : WorkerView) → IsBookKept b → IsTrueWorker b w
        → first_refusal b [] (batch_of w) ≡ None
        → length (all_settled b (batch_of w)).entries < ROOT_PARENT
        → AllByRecursion (IsTrueParcel (all_settled b (batch_of w)))
        (released_by (length b.entries) (batch_of w)) }
    ensures grows { (b : BookState) (w : WorkerView) → IsBookKept b → IsTrueWorker b w
        → first_refusal b [] (batch_of w) ≡ None
        → length (all_settled b (batch_of w)).entries < ROOT_PARENT
        → Grows b (all_settled b (batch_of w)) }
{}

/// Law: what is true of a book stays true of it as its entries grow: what a worker holds, and a
/// parcel and a bound anywhere.
pub fn truth_stays()
    ensures worker { (b b' : BookState) (w : WorkerView)
        → Grows b b' → IsTrueWorker b w → IsTrueWorker b' w }
    ensures parcel { (b b' : BookState) (r : Released) → Grows b b' → IsTrueParcel b r
        → IsTrueParcel b' r }
    ensures bound { (b b' : BookState) (seen : Option ℕ)
        → Grows b b' → IsSeenOf b seen → IsSeenOf b' seen }
{}
