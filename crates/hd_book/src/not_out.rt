//! What is not out.
ghost use Rattle.std.specs.Prelude.{Some, codes};

use std::fmt;
use thiserror::Error;

/// There is no such ticket or group out, or no such entries are acknowledged.
#[derive(Clone, Copy, Debug, PartialEq, Eq, Error)]
pub struct NotOut;

impl fmt::Display for NotOut {
    ghost output = { λ _. Some (codes "38 NotOut") };

    fn fmt<W: fmt::Write>(&self, f: &mut fmt::Formatter<W>) -> fmt::Result {
        write!(f, "38 NotOut")
    }
}
