//! Names with what is declared of each.

use crate::names::NumberedNames;
use hd_base::Sequence;

/// Names, each once, and what is declared of each, in the same order.
#[derive(Debug, Drop)]
pub struct Table<T> {
    pub names: NumberedNames,
    /// As many as there are names.
    pub items: Sequence<T>,
}
