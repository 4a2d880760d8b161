//! The base of all crates: lists, names, numbers, numeric expressions, and words for contracts.
//!
//! Contracts see containers as plain data, without addresses and capacities: a list as its items, a
//! name as its bytes, an [`Expr`] as a tree. [`in_range`] decides the range of numbers, from -10^15
//! to 10^15. [`if_in_range`] and [`total_cost`] return an exact number, or `None` outside of the
//! range. If memory runs out, a call returns [`NoMemory`].
//!
//! A [`Name`] of up to 14 bytes and a [`Tuple`] of up to four items need no memory of their own.
//! [`Seed`] hashes by SipHash, from a digest of the texts, to resist keys that collide.
//! `specs/Answers` has the words for calls that may fail. Start reading at [`Name`], then
//! `specs/Numbers`.
#![tactic(auto)]

mod boxed;
mod expression;
mod name;
mod operation;
mod range;
mod relation;
mod seed;
mod sequence;
mod spare;
mod tuple;

pub use boxed::Boxed;
pub use expression::{Expr, ExprParts, Operand};
pub use name::Name;
pub use operation::Operation;
pub use range::{RANGE_END, if_in_range, in_range, total_cost};
pub use relation::Relation;
pub use seed::Seed;
pub use sequence::Sequence;
pub use spare::exact;
pub use tuple::Tuple;

/// Lack of memory: a growth was refused, and nothing was changed.
pub type NoMemory = std::alloc::AllocError;
