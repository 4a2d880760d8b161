//! What may wait in an open list.
ghost use Rattle.std.specs.Prelude.{◌≡◌, ℕ, Option};

/// A node that may wait to be expanded.
pub trait Waits {
    // Its cost plus its estimate; none where the estimate is infinite.
    ghost total: { Self → Option ℕ };

    /// Returns the cost plus the estimate; none where the estimate is infinite.
    fn total(&self) -> Option<u128>
        ensures { result ≡ total self.now };
}
