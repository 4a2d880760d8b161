//! What is made of two numbers.
ghost use Rattle.hd_base.specs.Numbers.{result_of, in_range};
ghost use Rattle.hd_base.specs.Answers.{Judges};

use crate::range::if_in_range;

/// What is made of two numbers.
#[derive(Clone, Copy, Debug, PartialEq, Eq)]
pub enum Operation {
    Add,
    Subtract,
    Multiply,
}

impl Operation {
    /// Returns what it makes of two numbers, if that is in the range.
    pub fn result_in_range(self, left: i64, right: i64) -> Option<i64>
        ensures { Judges result (in_range (result_of self left right)) (result_of self left right) }
    {
        match self {
            Operation::Add => if_in_range(left.checked_add(right)),
            Operation::Subtract => if_in_range(left.checked_sub(right)),
            Operation::Multiply => if_in_range(left.checked_mul(right)),
        }
    }
}
