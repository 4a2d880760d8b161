//! Conditions, effects and action schemas, with arguments in the place of names.
ghost use Rattle.std.specs.Prelude.{◌≡◌};
ghost use Rattle.hd_lifted.specs.declared.schema.Argument.TheVariants.{Object};

use hd_base::{Boxed, Name, Operand, Relation, Sequence, Tuple};

/// What stands for an object.
#[derive(Clone, Copy, Debug, PartialEq, Eq)]
pub enum Argument {
    /// A parameter of the schema, by its place from 0.
    Parameter(usize),
    /// An object of the task, by its number.
    Object(usize),
}

/// The first object: what a `SmallVec` of arguments keeps in its unused places.
impl Default for Argument {
    ghost is_default = { λ a. a ≡ Object 0 };

    fn default() -> Argument {
        Argument::Object(0)
    }
}

/// A predicate or a function, by its number, with its arguments.
#[derive(Debug, PartialEq, Eq, Drop)]
pub struct AppliedSymbol {
    /// The number of the predicate or function.
    pub symbol: usize,
    pub arguments: Sequence<Argument>,
}

/// A predicate or a function, by its number, with the numbers of objects: a ground atom or fluent.
#[derive(Debug, PartialEq, Eq, PartialOrd, Ord, Hash, Drop)]
pub struct Ground {
    /// The number of the predicate or function.
    pub symbol: usize,
    /// The objects, by number.
    pub objects: Tuple<usize>,
}

/// That an atom is true, or that it is false.
#[derive(Debug, PartialEq, Eq, Drop)]
pub struct Literal {
    pub atom: AppliedSymbol,
    /// Whether it has to be true.
    pub positive: bool,
}

/// That both arguments are the same object, or that they are not.
#[derive(Clone, Copy, Debug, PartialEq, Eq)]
pub struct Equality {
    pub left: Argument,
    pub right: Argument,
    /// Whether they have to be the same.
    pub positive: bool,
}

/// A number, or the value of a fluent with arguments. What it is applied to has memory of its own,
/// since every part of an expression is as wide as its widest leaf.
pub type Leaf = Operand<Boxed<AppliedSymbol>>;

/// A numeric expression over numbers and fluents with arguments.
pub type Expr = hd_base::Expr<Leaf>;

/// A comparison of two numbers.
#[derive(Debug, Drop)]
pub struct Comparison {
    pub relation: Relation,
    pub left: Expr,
    pub right: Expr,
}

/// A conjunction. Each list is in the text's order.
#[derive(Debug, Drop)]
pub struct Condition {
    pub literals: Sequence<Literal>,
    pub equalities: Sequence<Equality>,
    pub comparisons: Sequence<Comparison>,
}

/// How a numeric effect changes its fluent.
#[derive(Clone, Copy, Debug, PartialEq, Eq)]
pub enum ChangeKind {
    /// The amount is the value.
    Assign,
    /// The value is multiplied by the amount.
    ScaleUp,
    /// The amount is added.
    Increase,
    /// The amount is taken away.
    Decrease,
    /// An increase of the metric's function: a part of the action's cost, which changes no fluent.
    Cost,
}

/// A change of a fluent by an amount.
#[derive(Debug, Drop)]
pub struct NumericEffect {
    pub change: ChangeKind,
    pub fluent: AppliedSymbol,
    pub amount: Expr,
}

/// An action of the domain, with parameters.
#[derive(Debug, Drop)]
pub struct Schema {
    pub name: Name,
    /// The numbers of the parameters' types.
    pub parameters: Sequence<usize>,
    pub condition: Condition,
    pub deletes: Sequence<AppliedSymbol>,
    pub adds: Sequence<AppliedSymbol>,
    /// The numeric effects, in the text's order.
    pub effects: Sequence<NumericEffect>,
}
