//! Laws over the definitions. Each function does nothing: its contract is the law.
ghost use Rattle.std.specs.Prelude.{◌≡◌, ◌≤◌, Some, Contains, map};
ghost use Rattle.hd_base.specs.declared.range.TheConstants.{RANGE_END};
ghost use Rattle.hd_task.specs.declared.task.Task.{Task};
ghost use Rattle.hd_task.specs.Plans.{Node, node, step_by};
ghost use Rattle.hd_task.specs.Expansions.{applicable_at};
ghost use Rattle.hd_node.specs.declared.batch.TheConstants.{MAX_OUTCOMES};
ghost use Rattle.hd_node.specs.Children.{ChildView, children_at};

/// Law: the children of a node are those of its applicable actions, in order; each stands where its
/// step leads, at a cost in the range.
pub fn children_are_the_steps()
    ensures actions { (t : Task) (r : Node)
        → map (λ (c : ChildView). c.action) (children_at t r) ≡ applicable_at t (Some r) }
    ensures leads { (t : Task) (r : Node) (c : ChildView)
        → Contains (children_at t r) c → step_by t r c.action ≡ Some (node c.state c.cost) }
    ensures in_range { (t : Task) (r : Node) (c : ChildView)
        → Contains (children_at t r) c → c.cost ≤ RANGE_END }
{}

/// Law: a batch has 1,024 outcomes at most.
pub fn batches_are_small()
    ensures { MAX_OUTCOMES ≡ 1024 }
{}
