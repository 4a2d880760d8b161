//! Computes the parts of a ground task from a lifted task: atoms and fluents by number, and the
//! images of conditions, effects and costs.
//!
//! A function named like a definition in hd_grounding's `specs/Grounding` or `specs/Images` returns
//! exactly its value. [`action_of`] and [`effects_of`] meet `IsActionOf` and `HasEffectsOf`.
//! [`first_undefined`] and [`first_negative`] find what the errors name.
//!
//! [`Forms`] gathers ground forms, each once; [`NumberedForms`] numbers them by symbol, then by
//! objects. Both are hash sets, and a form of up to four objects needs no memory of its own.
//! hd_judge's `Lookups` has the first values and the functions that change. Start reading at
//! [`action_of`], then at [`NumberedForms`].
#![tactic(auto)]

mod actions;
mod atoms;
mod conditions;
mod costs;
mod effects;
mod expressions;
mod forms;
pub mod laws;
mod met;
mod names;
mod negative;
mod numbers;
mod start;
mod undefined;

pub use actions::action_of;
pub use atoms::atoms_in;
pub use conditions::{condition_of, numbers_of};
pub use costs::{costs_of, count_costs};
pub use effects::effects_of;
pub use expressions::expression_of;
pub use forms::Forms;
pub use met::met_by_all;
pub use names::{form_of_instance, forms_of, names_in};
pub use negative::first_negative;
pub use numbers::NumberedForms;
pub use start::start_in;
pub use undefined::first_undefined;
