//! Laws over the definitions. Each function does nothing: its contract is the law.
ghost use Rattle.std.specs.Prelude.{◌≡◌, ℕ, true, List, [], map, All, Contains, Some, slice_get, pos, ◌↔◌};
ghost use Rattle.hd_lifted.specs.declared.instance.Instance.{Instance};
ghost use Rattle.hd_lifted.specs.declared.task.LiftedTask.{LiftedTask};
ghost use Rattle.hd_lifted.specs.Departures as ranges;
ghost use Rattle.hd_lifted.specs.Plans as domain;
ghost use Rattle.hd_lifted.specs.Plans.{IsInstance};
ghost use Rattle.hd_lifted.specs.Steps.{Reached};
ghost use Rattle.hd_task.specs.declared.action.Action.{Action};
ghost use Rattle.hd_task.specs.declared.task.Task.{Task};
ghost use Rattle.hd_task.specs.Departures.{action_departs, goal_departs};
ghost use Rattle.hd_task.specs.Expansions.{departures_of};
ghost use Rattle.hd_task.specs.Plans.{Node, exec, IsValidAt};
ghost use Rattle.hd_task.specs.Verdicts.{IsOptimal, HasNoPlan};
ghost use Rattle.hd_lifted.specs.Kept.{IsKept};
ghost use Rattle.hd_lifted.specs.Numbering.{NumbersInstances};
ghost use Rattle.hd_grounding.specs.Grounding.{IsGrounding};
ghost use Rattle.hd_grounding.specs.Departures.{NoActionDeparts, NoInstanceDeparts, InstanceDepartsAt, GoalDepartsAt};
ghost use Rattle.hd_grounding.specs.Instances.{instance_of, instances_of, IsOfValidPlan, HasAction};
ghost use Rattle.hd_grounding.specs.Runs.{LeadsThere, IsOfPlan};

/// Law: the actions of a task are the kept instances of its domain, in their order: each has an
/// action, and each action is one of them.
pub fn actions_are_the_kept_instances()
    ensures numbered { (t : LiftedTask) (u : Task)
        → IsGrounding t u → NumbersInstances t (map instance_of u.actions) }
    ensures kept { (t : LiftedTask) (u : Task) (i : Instance)
        → IsGrounding t u → IsKept t i ↔ HasAction u i }
{}

/// Law: the valid plans of a task are those of its domain, at the same costs: none is made up and
/// none is lost, and the cost of each valid plan of the domain is an integer that is not negative.
pub fn plans_are_transferred()
    ensures there { (t : LiftedTask) (u : Task) (p : List ℕ) (c : ℕ)
        → IsGrounding t u → IsValidAt u p c → domain.IsValidAt t (instances_of u p) (pos c) }
    ensures back { (t : LiftedTask) (u : Task) (q : List Instance)
        → IsGrounding t u → domain.IsValid t q → IsOfValidPlan u q }
    ensures cost { (t : LiftedTask) (u : Task) (q : List Instance)
        → IsGrounding t u → domain.IsValid t q → (c : ℕ) × domain.IsValidAt t q (pos c) }
{}

/// Law: plans go over, whether they are valid or not: where a plan is executed in the task, its
/// instances are executed in the domain, and each list of instances that is executed in the domain
/// is that of such a plan, of one alone. Both lead to states that agree, at the same cost.
pub fn runs_are_transferred()
    ensures there { (t : LiftedTask) (u : Task) (made : IsGrounding t u) (p : List ℕ) (m : Node)
        → exec u p ≡ Some m → LeadsThere made p m }
    ensures back { (t : LiftedTask) (u : Task) (made : IsGrounding t u)
        (q : List Instance) (r : Reached)
        → All (IsInstance t) q → domain.exec t q ≡ Some r → IsOfPlan made q r }
    ensures one { (t : LiftedTask) (u : Task) (p q : List ℕ) (m n : Node)
        → IsGrounding t u → exec u p ≡ Some m → exec u q ≡ Some n
        → instances_of u p ≡ instances_of u q → p ≡ q }
{}

/// Law: where a plan of the task leads and where its instances do, an action leaves the range
/// exactly where its instance does, and so does the goal. That the instances lead anywhere,
/// `runs_are_transferred` says.
pub fn departures_are_transferred()
    ensures actions { (t : LiftedTask) (u : Task) (p : List ℕ) (m : Node) (r : Reached)
        (k : ℕ) (a : Action)
        → IsGrounding t u → exec u p ≡ Some m → domain.exec t (instances_of u p) ≡ Some r
        → slice_get u.actions k ≡ Some a
        → action_departs u m k ≡ ranges.instance_departs t r (instance_of a) }
    ensures goal { (t : LiftedTask) (u : Task) (p : List ℕ) (m : Node) (r : Reached)
        → IsGrounding t u → exec u p ≡ Some m → domain.exec t (instances_of u p) ≡ Some r
        → goal_departs u m ≡ ranges.goal_departs t r }
{}

/// Law: an instance that leaves the range where a plan of the task leads is that of an action:
/// those that are left out depart nowhere.
pub fn departing_instances_have_actions()
    ensures { (t : LiftedTask) (u : Task) (p : List ℕ) (m : Node) (r : Reached) (i : Instance)
        → IsGrounding t u → exec u p ≡ Some m → domain.exec t (instances_of u p) ≡ Some r
        → IsInstance t i → ranges.instance_departs t r i ≡ true → HasAction u i }
{}

/// Law: nothing departs unseen: where no action of the task departs, and not its goal, no instance
/// of the domain departs, and not its goal; and the other way round.
pub fn nothing_departs_unseen()
    ensures { (t : LiftedTask) (u : Task) (p : List ℕ) (m : Node) (r : Reached)
        → IsGrounding t u → exec u p ≡ Some m → domain.exec t (instances_of u p) ≡ Some r
        → NoActionDeparts u m ↔ NoInstanceDeparts t r }
{}

/// Law: where a search has recorded no departure, nothing departs in the domain where a plan that
/// it expanded leads.
pub fn nothing_recorded_nothing_departs()
    ensures { (t : LiftedTask) (u : Task) (expanded : List (List ℕ)) (p : List ℕ)
        (m : Node) (r : Reached)
        → IsGrounding t u → departures_of u expanded ≡ [] → Contains expanded p
        → exec u p ≡ Some m → domain.exec t (instances_of u p) ≡ Some r → NoInstanceDeparts t r }
{}

/// Law: where an action of the task departs, the domain leaves the range: the plan's instances are
/// executed there, and where they lead the action's instance departs. So it is with the goal.
pub fn departures_are_of_the_domain()
    ensures actions { (t : LiftedTask) (u : Task) (p : List ℕ) (m : Node)
        (k : ℕ) (a : Action)
        → IsGrounding t u → exec u p ≡ Some m → slice_get u.actions k ≡ Some a
        → action_departs u m k ≡ true → InstanceDepartsAt t (instances_of u p) (instance_of a) }
    ensures goal { (t : LiftedTask) (u : Task) (p : List ℕ) (m : Node)
        → IsGrounding t u → exec u p ≡ Some m → goal_departs u m ≡ true
        → GoalDepartsAt t (instances_of u p) }
{}

/// Law: a true verdict of a task is one of its domain: the instances of an optimal plan are an
/// optimal plan of the domain, at the same cost, and where the task has no plan, the domain has
/// none.
pub fn verdicts_are_transferred()
    ensures optimal { (t : LiftedTask) (u : Task) (p : List ℕ)
        → IsGrounding t u → IsOptimal u p → domain.IsOptimal t (instances_of u p) }
    ensures cost { (t : LiftedTask) (u : Task) (p : List ℕ)
        (best : IsOptimal u p) (there : domain.IsOptimal t (instances_of u p))
        → IsGrounding t u → there.cost ≡ pos best.cost }
    ensures no_plan { (t : LiftedTask) (u : Task)
        → IsGrounding t u → HasNoPlan u → domain.HasNoPlan t }
{}
