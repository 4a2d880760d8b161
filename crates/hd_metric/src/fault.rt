//! A wrong use of the metric's function.
ghost use Rattle.std.specs.Prelude.{Some};
ghost use Rattle.hd_metric.specs.Fault.{text_of};

use std::fmt;

/// A wrong use of the metric's function: it is read, also in an amount of its own, changed
/// otherwise than by an increase, not 0 at first, or without a first value.
#[derive(Clone, Copy, Debug, PartialEq, Eq)]
pub struct BadMetric {
    /// The place of its first byte in its text, counted from 0.
    pub at: usize,
}

impl fmt::Display for BadMetric {
    ghost output = { λ fault. Some (text_of fault) };

    fn fmt<W: fmt::Write>(&self, f: &mut fmt::Formatter<W>) -> fmt::Result {
        write!(f, "13 BadMetric({})", self.at)
    }
}
