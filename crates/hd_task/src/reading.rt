//! Reading states.
/// What tests of conditions and effects read: a state, in whatever form it is kept.
pub trait Reads {
    ghost use Rattle.std.specs.Prelude.{◌≡◌};
    ghost use Rattle.hd_task.specs.declared.state.State.{State};
    ghost use Rattle.hd_task.specs.Conditions.{has_atom};
    ghost use Rattle.hd_task.specs.Expressions.{fluent_of};

    // The state that is kept.
    ghost seen: { Self → State };

    /// Reports whether the atom of this number is true. One that the state lacks is false.
    fn has_atom(&self, atom: u32) -> bool
        ensures { result ≡ has_atom (seen self.now) atom };

    /// Returns the value of the fluent of this number. One that the state lacks is 0.
    fn fluent_of(&self, fluent: u32) -> i64
        ensures { result ≡ fluent_of (seen self.now).fluents fluent };
}
