//! States that are estimated together.

/// How many states are estimated at once, at most.
pub const LANES: usize = 64;

/// States that are estimated together, in whatever form they are kept. The lane of a state is its
/// place among them.
pub trait Group {
    ghost use Rattle.std.specs.Prelude.{ℕ, ◌≡◌, ◌+◌, ◌*◌, ◌<◌, ◌≤◌, ◌==◌, List, length, slice_get, IfSome};
    ghost use Rattle.std.specs.Int.{bit_at};
    ghost use Rattle.hd_task.specs.declared.state.State.{State};
    ghost use Rattle.hd_task.specs.Conditions.{has_atom};

    // The states, in order.
    ghost states: { Self → List State };

    /// Returns how many states there are.
    fn count(&self) -> usize
        ensures { result ≡ length (states self.now) };

    /// Reports whether the atom of this number is true in the state of this lane.
    fn has_atom(&self, lane: usize, atom: u32) -> bool
        requires { lane < length (states self.now) }
        ensures { IfSome (slice_get (states self.now) lane) (λ s. result ≡ has_atom s atom) };

    /// Returns eight atoms of the state of this lane, a bit each, from the atom `8 * number` on.
    fn eight_atoms(&self, lane: usize, number: usize) -> u8
        requires lane { lane < length (states self.now) }
        requires atoms { IfSome (slice_get (states self.now) lane)
            (λ s. 8 * number + 8 ≤ length s.atoms) }
        ensures { IfSome (slice_get (states self.now) lane)
            (λ s. (k : ℕ) → k < 8 → (bit_at result k == 1) ≡ has_atom s (8 * number + k)) };
}
