//! Estimates the cost from a state to the goal from below: h-max (Bonet and Geffner 2001; Haslum
//! and Geffner 2000), over atoms and their negations.
//!
//! [`Hmax::value`] returns exactly `hmax` of the state, and does not allocate. No way to the goal
//! costs less, and it is infinite only if there is none ([`laws::hmax_is_admissible`]).
//!
//! A literal costs 0 if it is true, else as much as the cheapest action that achieves it. An action
//! costs its price plus its most expensive condition literal. The estimate is the most expensive
//! goal literal. As in Dijkstra's algorithm, the cheapest ready action comes first. A row has those
//! that get ready in order of cost, and a heap the others.
//!
//! [`Hmax::estimates`] returns those of up to 64 states at once, mostly for a small part of the
//! work. A level is a cost. Level by level it computes which literals cost at most that much, with
//! a bit for each state.
//!
//! Start reading at [`Hmax::value`], then `src/settling.rt`; or at [`Hmax::estimates`], then
//! `src/levels.rt`.
#![tactic(auto)]

mod batches;
mod estimate;
mod group;
mod hmax;
pub mod laws;
mod levels;
mod prices;
mod queue;
mod rows;
mod rules;
mod settling;
mod words;

pub use estimate::{Estimate, EstimateValue};
pub use group::{Group, LANES};
pub use hmax::Hmax;
