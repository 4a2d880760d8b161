//! Defines the ground task of a lifted task (`IsGrounding`), and states laws about it; there is no
//! code to run.
//!
//! [`laws::groundings_are_one`]: a lifted task has at most one grounding.
//! [`laws::faults_leave_no_grounding`]: a task with an error has none. If two states agree, a
//! numbered condition holds in both or in neither ([`laws::conditions_are_grounded`]).
//! [`fitting_laws`]: parts that are made of a checked task fit together, and are a grounding.
//! [`transfer_laws`]: both tasks have the same valid plans at the same costs, an action departs
//! exactly if its instance does, and so a verdict on the ground task is true of the domain.
//!
//! The number of an atom or a fluent is its place in a sorted list, and each part has an image by
//! these numbers. `plan_of` turns action numbers into instances of the domain. A plan leads to
//! states that agree in both (`Correspond`). A function of these modules does nothing: its contract
//! is the law. Start reading at `specs/Grounding`, then `specs/Images`, `specs/Faults` and
//! `specs/Instances`.
#![tactic(auto)]

pub mod fitting_laws;
pub mod laws;
pub mod transfer_laws;
