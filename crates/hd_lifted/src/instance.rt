//! Instances of schemas.

use hd_base::Tuple;

/// A schema with objects in the place of its parameters.
#[derive(Debug, PartialEq, Eq, PartialOrd, Ord, Hash, Drop)]
pub struct Instance {
    /// The schema's number.
    pub schema: usize,
    /// The objects that the parameters stand for, by number, in the parameters' order.
    pub objects: Tuple<usize>,
}
