//! Resolves the names of a domain and a problem to numbers: types, objects, predicates, functions.
//!
//! [`types_of`], [`scope_of`] and [`with_objects`] return exactly what the declarations define, or
//! their first error: an unknown name, or one that is declared twice. [`hierarchy_of`] returns the
//! hierarchy of the types, or reports a type on a cycle. [`known`] returns the number of a used
//! name, or reports it as unknown. Contracts see [`NumberedNames`] as the list of its names.
//!
//! [`NumberedNames`] is a hash table that keeps the order of insertion, and the number of a name is
//! its place. A [`Table`] adds what is declared of each name. All tables of a scope hash by the
//! same seed. Start reading at [`scope_of`], then `specs/Scope`.
#![tactic(auto)]

mod declared;
mod fault;
mod names;
mod scope;
mod table;
mod types;

pub use declared::table_of;
pub use fault::{NameFault, NameStop};
pub use names::{NumberedNames, declare, duplicate, known, spelled};
pub use scope::{Scope, scope_of, with_objects};
pub use table::Table;
pub use types::{hierarchy_of, number_of_type, numbers_of_types, types_of};
