//! How two numbers compare.
ghost use Rattle.std.specs.Prelude.{◌≡◌};
ghost use Rattle.hd_base.specs.Numbers.{relation_holds};

/// How the two sides of a comparison compare.
#[derive(Clone, Copy, Debug, PartialEq, Eq)]
pub enum Relation {
    Less,
    LessOrEqual,
    Equal,
    GreaterOrEqual,
    Greater,
}

impl Relation {
    /// Reports whether it holds between two numbers.
    pub fn holds(self, left: i64, right: i64) -> bool
        ensures { result ≡ relation_holds self left right }
    {
        match self {
            Relation::Less => left < right,
            Relation::LessOrEqual => left <= right,
            Relation::Equal => left <= right && right <= left,
            Relation::GreaterOrEqual => right <= left,
            Relation::Greater => right < left,
        }
    }
}
