//! Planning tasks.
ghost use Rattle.std.specs.Prelude.{◌≡◌, IsTrue, length};
ghost use Rattle.std.specs.List.{list_all};
ghost use Rattle.hd_base.specs.Numbers.{in_range};
ghost use Rattle.hd_task.specs.WellFormed.{within_limits, are_named, action_fits, goal_fits, costs_fit, constant_cost_fits};

use crate::well_formed::{
    are_actions_well_formed, are_all_in_range, are_named, are_within_limits, do_constant_costs_fit,
    do_costs_fit, goal_fits,
};
use crate::{Action, Condition, GroundForm, Names, State};
use hd_base::Sequence;

/// The greatest number of actions of a task.
pub const MAX_ACTIONS: usize = 1 << 20;

/// The greatest number of atoms of a task.
pub const MAX_ATOMS: usize = 1 << 20;

/// The greatest number of fluents of a task.
pub const MAX_FLUENTS: usize = 1 << 16;

/// The greatest number of amounts that one action adds to the cost, so that the costs of a plan's
/// steps fit 128 bits.
pub const MAX_AMOUNTS: usize = 1 << 32;

/// A planning task: a start, a goal and the actions that may lead there.
#[derive(Debug, Drop)]
pub struct Task {
    pub names: Names,
    /// The atoms by number.
    pub atoms: Sequence<GroundForm>,
    /// The fluents by number. The metric's function is none of them.
    pub fluents: Sequence<GroundForm>,
    pub initial: State,
    /// The actions by number.
    pub actions: Sequence<Action>,
    pub goal: Condition,
    /// Whether actions cost what they say; else each costs 1.
    pub metric: bool,
    // There are no more atoms, fluents and actions than the constants allow.
    ghost limits: { IsTrue (within_limits (length atoms) (length fluents) (length actions)) },
    // Each symbol and object has a name.
    ghost named: { IsTrue (are_named names atoms fluents actions) },
    // The start has a bit for each atom.
    ghost start_atoms: { length initial.atoms ≡ length atoms },
    // The start has a value for each fluent.
    ghost start_fluents: { length initial.fluents ≡ length fluents },
    // Each fluent starts in the range.
    ghost start_in_range: { IsTrue (list_all in_range initial.fluents) },
    // Actions add atoms of the task, read its fluents, and change each once at most, in order.
    ghost actions_fit: { IsTrue (list_all (action_fits (length atoms) (length fluents)) actions) },
    // The goal names atoms of the task and reads its fluents.
    ghost goal_fits: { IsTrue (goal_fits (length atoms) (length fluents) goal) },
    // An action's amounts read fluents of the task, and are not too many; without a metric there
    // are none.
    ghost costs_fit: { IsTrue (list_all (costs_fit (length fluents) metric) actions) },
    // An action whose amounts are all constant costs nothing negative.
    ghost constant_costs_fit: { IsTrue (list_all constant_cost_fits actions) },
}

impl Task {
    ghost use Rattle.std.specs.Prelude.{◌≡◌, is_some, IfSome};
    ghost use Rattle.hd_task.specs.WellFormed.{parts_fit};
    ghost use Rattle.hd_task.specs.Parts.{HasParts};

    /// Returns the task of these parts, or `None` where they do not fit together: where a name, a
    /// fluent, or an atom that the goal names or an action adds, is missing, an effect's fluent
    /// stands twice or out of order, the start is out of the range, a constant cost is negative, or
    /// a limit is passed. An atom that an action asks for or deletes may be missing: it is false.
    pub fn new(
        names: Names,
        atoms: Sequence<GroundForm>,
        fluents: Sequence<GroundForm>,
        initial: State,
        actions: Sequence<Action>,
        goal: Condition,
        metric: bool,
    ) -> Option<Task>
        ensures made { is_some result ≡ parts_fit names atoms fluents initial actions goal metric }
        ensures parts { IfSome result (HasParts names atoms fluents initial actions goal metric) }
    {
        let fits = are_within_limits(atoms.len(), fluents.len(), actions.len())
            && are_named(
                &names,
                atoms.as_slice(),
                fluents.as_slice(),
                actions.as_slice(),
            )
            && initial.atoms.len() == atoms.len()
            && initial.fluents.len() == fluents.len()
            && are_all_in_range(initial.fluents.as_slice())
            && are_actions_well_formed(actions.as_slice(), atoms.len(), fluents.len())
            && goal_fits(&goal, atoms.len(), fluents.len())
            && do_costs_fit(actions.as_slice(), fluents.len(), metric)
            && do_constant_costs_fit(actions.as_slice());
        if !fits {
            return None;
        }
        Some(Task {
            names,
            atoms,
            fluents,
            initial,
            actions,
            goal,
            metric,
        })
    }
}
