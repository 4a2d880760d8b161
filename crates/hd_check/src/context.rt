//! What names stand for at one place of the texts.

use hd_names::{Scope, Table};

/// The scope of a text, and the parameters of the action that stands there: outside of actions
/// there are none.
#[derive(Clone, Copy)]
pub struct Context<'a> {
    pub scope: &'a Scope,
    /// The parameters, with the numbers of their types.
    pub parameters: &'a Table<usize>,
}
