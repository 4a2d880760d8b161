//! Totals in few bytes.
ghost use Rattle.std.specs.Prelude.{◌≡◌, IfOk};

use hd_base::{Boxed, NoMemory};
use std::alloc::Global;
use std::marker::Model;

/// How a total is kept.
#[derive(Debug, Drop)]
pub(crate) enum Code {
    /// There is none.
    Infinite,
    Small(u64),
    /// It has more than 64 bits.
    Large(Boxed<u128>),
}

/// A cost plus an estimate, or none, in 16 bytes, which contracts see as such.
#[derive(Debug, Drop)]
pub(crate) struct Total {
    code: Code,
}

impl Model for Total {
    ghost use Rattle.std.specs.Prelude.{ℕ, Option};
    ghost use Rattle.hd_worker.specs.Total.{total_of_code};

    ghost Value = { Option ℕ };

    ghost view = { λ t. total_of_code t.code };
}

impl Total {
    /// Returns a total, or none.
    ///
    /// # Errors
    /// - `NoMemory`: it has more than 64 bits, and there is no room for it.
    pub(crate) fn of(alloc: Global, total: Option<u128>) -> Result<Total, NoMemory>
        ensures { IfOk result (λ t. t ≡ total) }
    {
        let code = match total {
            None => Code::Infinite,
            Some(sum) => {
                if sum <= u128::from(u64::MAX) {
                    Code::Small(sum as u64)
                } else {
                    Code::Large(Boxed::of(alloc, sum)?)
                }
            }
        };
        Ok(Total { code })
    }

    /// Returns the total, if there is one.
    pub(crate) fn get(&self) -> Option<u128>
        ensures { result ≡ self.now }
    {
        match &self.code {
            Code::Infinite => None,
            Code::Small(sum) => Some(u128::from(*sum)),
            Code::Large(sum) => Some(*sum.get()),
        }
    }
}
