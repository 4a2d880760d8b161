//! Laws over the definitions. Each function does nothing: its contract is the law.
ghost use Rattle.std.specs.Prelude.{◌≡◌, ◌<◌, ◌≤◌, ℕ, Bool, List, map, length};
ghost use Rattle.std.specs.List.{count_by, range_with_len, sum_by};
ghost use Rattle.hd_task.specs.declared.task.Task.{Task};
ghost use Rattle.hd_task.specs.declared.plan.Kid.{Kid};
ghost use Rattle.hd_task.specs.declared.plan.TheConstants.{ROOT_PARENT};
ghost use Rattle.hd_node.specs.declared.batch.By.TheVariants.{Entry};
ghost use Rattle.hd_entries.specs.Holding.{Released};
ghost use Rattle.hd_entries.specs.Resuming.{open_kids, resumed_state, AreLegal};
ghost use Rattle.hd_closed.specs.Closed.{Closed};
ghost use Rattle.hd_turns.specs.Worker.{WorkerView};
ghost use Rattle.hd_turns.specs.Truth.{IsTrueWorker};
ghost use Rattle.hd_recovery.specs.Recovered.{closed_in, open_nodes, recovered_worker, recovered_workers};

/// Law: all that each worker begins with is true of the book that has these entries.
pub fn workers_are_true()
    ensures { (t : Task) (entries : List Kid) (id workers : ℕ)
        → length entries < ROOT_PARENT → AreLegal t entries
        → IsTrueWorker (resumed_state t entries) (recovered_worker t entries id workers) }
{}

/// Law: all entries are closed, in order, and all successors that are no entries are open, in
/// posting order.
pub fn all_is_recovered()
    ensures closed { (t : Task) (entries : List Kid)
        → length entries < ROOT_PARENT → AreLegal t entries
        → map (λ (c : Closed). c.by) (closed_in (resumed_state t entries))
        ≡ map Entry (range_with_len 0 (length entries)) }
    ensures open { (t : Task) (entries : List Kid)
        → length entries < ROOT_PARENT → AreLegal t entries
        → map (λ (r : Released). r.kid) (open_nodes t entries) ≡ open_kids t entries }
{}

/// Law: the workers together have all that is open, and all that is closed, each as often as it is
/// there: nothing is lost, and nothing is at two workers.
pub fn nothing_is_lost()
    ensures open { (t : Task) (entries : List Kid) (workers : ℕ) (p : Released → Bool)
        → 1 ≤ workers
        → sum_by (λ (w : WorkerView). count_by p w.waiting) (recovered_workers t entries workers)
        ≡ count_by p (open_nodes t entries) }
    ensures closed { (t : Task) (entries : List Kid) (workers : ℕ) (p : Closed → Bool)
        → 1 ≤ workers
        → sum_by (λ (w : WorkerView). count_by p w.closed) (recovered_workers t entries workers)
        ≡ count_by p (closed_in (resumed_state t entries)) }
{}
