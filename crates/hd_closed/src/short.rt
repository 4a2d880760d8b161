//! Places and estimates in a few bytes.
ghost use Rattle.std.specs.Prelude.{◌≡◌, ◌<◌, None, Some, IfSome};

use hd_hmax::EstimateValue;
use std::marker::Model;

/// So many places have a number of 32 bits.
pub(crate) const MAX_PLACES: usize = 4_294_967_295;

/// A place, or none, in 32 bits.
#[derive(Debug, Drop)]
pub(crate) struct ShortPlace {
    /// 0 for none, else one more than the place.
    code: u32,
}

impl Model for ShortPlace {
    ghost use Rattle.std.specs.Prelude.{ℕ, Option};
    ghost use Rattle.hd_closed.specs.Short.{place_of_code};

    ghost Value = { Option ℕ };

    ghost view = { λ p. place_of_code p.code };
}

impl ShortPlace {
    /// Returns no place.
    pub(crate) fn none() -> ShortPlace
        ensures { result ≡ None }
    {
        ShortPlace { code: 0 }
    }

    /// Returns a place.
    pub(crate) fn of(place: usize) -> ShortPlace
        requires { place < MAX_PLACES }
        ensures { result ≡ Some place }
    {
        ShortPlace {
            code: place as u32 + 1,
        }
    }

    /// Returns the same.
    pub(crate) fn copied(&self) -> ShortPlace
        ensures { result ≡ self.now }
    {
        ShortPlace { code: self.code }
    }

    /// Returns the place, if it is one.
    pub(crate) fn get(&self) -> Option<usize>
        ensures { result ≡ self.now }
    {
        if self.code == 0 {
            None
        } else {
            Some((self.code - 1) as usize)
        }
    }
}

/// The value of an estimate, or none, in 64 bits.
#[derive(Debug, Drop)]
pub(crate) struct Known {
    /// 0 for none, 1 if there is no way to the goal, else two more than the cost.
    code: u64,
}

impl Model for Known {
    ghost use Rattle.std.specs.Prelude.{Option};
    ghost use Rattle.hd_hmax.specs.declared.estimate.EstimateValue.{EstimateValue};
    ghost use Rattle.hd_closed.specs.Short.{value_of_code};

    ghost Value = { Option EstimateValue };

    ghost view = { λ k. value_of_code k.code };
}

impl Known {
    /// Returns no value.
    pub(crate) fn none() -> Known
        ensures { result ≡ None }
    {
        Known { code: 0 }
    }

    /// Returns a value; none where it has more than 64 bits.
    pub(crate) fn of(value: EstimateValue) -> Known
        ensures { IfSome result (λ v. v ≡ value) }
    {
        match value {
            EstimateValue::Cost(cost) => {
                if cost < u128::from(u64::MAX - 1) {
                    Known {
                        code: cost as u64 + 2,
                    }
                } else {
                    Known { code: 0 }
                }
            }
            EstimateValue::Dead => Known { code: 1 },
        }
    }

    /// Returns the value, if there is one.
    pub(crate) fn get(&self) -> Option<EstimateValue>
        ensures { result ≡ self.now }
    {
        if self.code == 0 {
            None
        } else if self.code == 1 {
            Some(EstimateValue::Dead)
        } else {
            Some(EstimateValue::Cost(u128::from(self.code - 2)))
        }
    }
}
