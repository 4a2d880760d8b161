//! Defines what the parts of a search exchange: parcels, expansions, and batches of outcomes.
//!
//! An [`Expansion`] has exactly the children of its state and cost, in order, exactly the
//! departures there, and the goal's test. A [`Parcel`] only claims that its node leads to its
//! state: the book checks it. A [`Batch`] has 1 to [`MAX_OUTCOMES`] outcomes. An [`Outline`] is an
//! expansion that names its children by their actions, and has not their states.
//!
//! An expansion tries only the candidates of hd_successors, and allocates its list of children
//! once. A state travels packed, with its hash ([`Hashed`]). [`Parcel::of_child`] moves a child,
//! and does not allocate.
//!
//! Start reading at [`Expansion::of`], then `src/exploring.rt`.
#![tactic(auto)]

mod batch;
mod child;
mod children;
mod expansion;
mod exploring;
mod hashed;
pub mod laws;
mod outline;
mod parcel;

pub use batch::{Batch, By, MAX_OUTCOMES, Outcome};
pub use child::Child;
pub use children::Children;
pub use expansion::{Expansion, ExpansionParts};
pub use hashed::Hashed;
pub use outline::Outline;
pub use parcel::Parcel;
