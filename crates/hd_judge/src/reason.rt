//! Reasons.
use hd_lifted::{Comparison, Equality, Expr, Literal, NumericEffect};

/// A subexpression that is out of the range.
#[derive(Clone, Copy)]
pub struct DepartingPart<'a> {
    pub part: &'a Expr,
    /// Its exact value.
    pub value: i128,
}

/// A new value that is out of the range.
#[derive(Clone, Copy)]
pub struct NewValue<'a> {
    /// The first effect on the fluent.
    pub effect: &'a NumericEffect,
    /// The step's effects, all those on the fluent among them.
    pub effects: &'a [NumericEffect],
    /// The exact value of the fluent after all effects.
    pub value: i128,
}

/// A cost that a step can't have where it is taken.
#[derive(Clone, Copy)]
pub struct StepCost<'a> {
    /// The step's effects, the parts of its cost among them.
    pub effects: &'a [NumericEffect],
    /// The exact cost of the step.
    pub value: i128,
    /// What the plan has cost before it.
    pub before: u64,
}

/// What of a condition, or of a step's effects, fails at a place of a plan.
#[derive(Clone, Copy)]
pub enum Reason<'a> {
    /// This literal does not hold.
    Literal(&'a Literal),
    /// This equality does not hold.
    Equality(Equality),
    /// This comparison does not hold.
    Comparison(&'a Comparison),
    /// This subexpression of a comparison or of an amount is out of the range.
    Subexpression(DepartingPart<'a>),
    /// The new value of a fluent is out of the range.
    NewValue(NewValue<'a>),
    /// The step's cost is negative.
    NegativeCost(StepCost<'a>),
    /// The plan's cost with the step's is out of the range.
    PlanCost(StepCost<'a>),
}
