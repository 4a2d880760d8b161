//! Values in memory of their own.
ghost use Rattle.std.specs.Prelude.{◌≡◌, IfOk};

use std::alloc::{AllocError, Global};
use std::marker::Model;

/// A value in memory of its own, which contracts see as the value itself: what holds it takes the
/// room of an address alone.
#[derive(Debug, Drop)]
pub struct Boxed<T> {
    inside: Box<T>,
}

impl<T> Model for Boxed<T> {
    ghost Value = { T };

    ghost view = { λ b. b.inside.value };
}

impl<T: Drop> Boxed<T> {
    /// Puts `value` into memory of its own.
    ///
    /// # Errors
    /// - Lack of memory.
    pub fn of(alloc: Global, value: T) -> Result<Boxed<T>, AllocError>
        ensures { IfOk result (λ b. b ≡ value) }
    {
        Ok(Boxed {
            inside: Box::new(alloc, value)?,
        })
    }

    /// Returns the value.
    pub fn get(&self) -> &T
        ensures { result.now ≡ self.now }
    {
        &self.inside
    }
}
