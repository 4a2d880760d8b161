//! Places in a text, in six bytes.
ghost use Rattle.std.specs.Prelude.{◌≡◌, IfOk};

use std::alloc::AllocError;
use std::marker::Model;

/// A place in a text, counted from 0, in six bytes: so it takes no more room beside the kind of a
/// form, or of a leaf, than the kind alone would.
#[derive(Debug, Drop)]
pub struct TextPlace {
    low: u16,
    middle: u16,
    high: u16,
}

impl Model for TextPlace {
    ghost use Rattle.std.specs.Prelude.{ℕ, ◌+◌, ◌*◌};

    ghost Value = { ℕ };

    ghost view = { λ p. p.low + 65536 * p.middle + 4294967296 * p.high };
}

impl TextPlace {
    /// Returns the place `at`. No memory holds a text that has a place of 2^48 or more, so that is
    /// want of memory.
    pub fn of(at: usize) -> Result<TextPlace, AllocError>
        ensures { IfOk result (λ p. p ≡ at) }
    {
        let above = at / 65_536;
        let high = above / 65_536;
        if high >= 65_536 {
            return Err(AllocError);
        }
        Ok(TextPlace {
            low: (at % 65_536) as u16,
            middle: (above % 65_536) as u16,
            high: high as u16,
        })
    }

    /// Returns the place as a number.
    pub fn get(&self) -> usize
        ensures { result ≡ self.now }
    {
        self.low as usize + 65_536 * (self.middle as usize) + 4_294_967_296 * (self.high as usize)
    }
}
