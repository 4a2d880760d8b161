//! What is read at a place.
ghost use Rattle.std.specs.Prelude.{◌≡◌, Some, pos};
ghost use Rattle.hd_judge.specs.Tables.{reached_in};

use crate::table::Place;
use hd_lifted::Ground;

impl Place {
    /// Reports whether an atom is true here.
    pub fn is_true(&self, atom: &Ground) -> bool
        ensures { result ≡ (reached_in self.now).state.atoms atom.now }
    {
        self.truths.get(atom)
    }

    /// Returns the value of a fluent here, if it has one.
    pub fn value(&self, fluent: &Ground) -> Option<i64>
        ensures { result ≡ (reached_in self.now).state.values fluent.now }
    {
        self.numbers.get(fluent)
    }

    /// Returns what the plan has cost so far.
    pub fn cost(&self) -> u64
        ensures { (reached_in self.now).cost ≡ Some (pos result) }
    {
        self.cost
    }
}
