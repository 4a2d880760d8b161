//! The range of numbers.
ghost use Rattle.std.specs.Prelude.{◌≡◌, ◌+◌, ℤ, true, FitsSigned};
ghost use Rattle.std.specs.Int.{w64};
ghost use Rattle.std.specs.Option.{SomeIff};
ghost use Rattle.hd_base.specs.Numbers.{in_range, cost_in_range};
ghost use Rattle.hd_base.specs.Answers.{Judges};

/// The greatest number of the range, whose least is its negative: that of every fluent,
/// subexpression and plan's cost.
pub const RANGE_END: u64 = 1_000_000_000_000_000;

/// Reports whether a number is in the range.
pub fn in_range(value: i64) -> bool
    ensures { result ≡ in_range value }
{
    value.unsigned_abs() <= RANGE_END
}

/// Returns the exact value that these 64 bits hold, if it is in the range. `None` stands for one
/// that they can't hold.
pub fn if_in_range(value: Option<i64>) -> Option<i64>
    ensures { (z : ℤ) → SomeIff value (FitsSigned w64 z) z → Judges result (in_range z) z }
{
    match value {
        Some(v) if in_range(v) => Some(v),
        _ => None,
    }
}

/// Returns the cost of a plan with one more step's, if it is in the range.
pub fn total_cost(cost: u64, step: u128) -> Option<u64>
    ensures { Judges result (cost_in_range (cost + step)) (cost + step) }
{
    if cost <= RANGE_END && step <= u128::from(RANGE_END - cost) {
        Some(cost + step as u64)
    } else {
        None
    }
}
