//! Ground planning tasks: what a task, a state and a plan are, and why a finished search is right.
//!
//! [`apply`] returns exactly what an action does in a state: it does not apply, leads to a state at
//! a cost, or departs. [`step`] adds the cost of the plan, [`action_test`] omits the next state,
//! and [`goal`] tests the goal. A [`Task`] exists only if its parts fit together. If a search is
//! finished, its bound is the cost of an optimal plan, and without a bound no plan is valid
//! ([`laws::verdicts_are_true`]).
//!
//! Plans are those of PDDL 2.1 (Fox and Long 2003); a search covers what hash-distributed A* has to
//! (HDA*; Kishimoto, Fukunaga and Botea 2013). A [`State`] is a list of truth values and a list of
//! numbers, indexed by atom and by fluent. So `apply` copies the state, and otherwise takes time in
//! the action's own size. `action_test` and `goal` do not allocate. Start reading at [`apply`],
//! then `specs/Plans` and `specs/Verdicts`.
#![tactic(auto)]

mod action;
mod applying;
mod condition;
mod departure;
mod effect;
pub mod examples;
mod expression;
mod form;
pub mod laws;
mod plan;
mod reading;
mod state;
mod stepping;
mod task;
mod testing;
mod texts;
mod well_formed;

pub use action::{Action, ActionId};
pub use applying::{Applied, GoalTest, apply, goal, step_cost};
pub use condition::{Comparison, Condition, Literal, test_of};
pub use departure::{DepartsBy, Departure};
pub use effect::{Effect, SumPart, ValueChange, new_value};
pub use expression::Expr;
pub use form::{GroundForm, Names};
pub use hd_base::{ExprParts, Name, NoMemory, Operand, Operation, RANGE_END, Relation, Sequence};
pub use plan::{Kid, Plan, ROOT_ACTION, ROOT_PARENT};
pub use reading::Reads;
pub use state::State;
pub use stepping::{Reached, step};
pub use task::{MAX_ACTIONS, MAX_AMOUNTS, MAX_ATOMS, MAX_FLUENTS, Task};
pub use testing::{ActionTest, action_test};
pub use texts::{form_text, push_ground_form};
