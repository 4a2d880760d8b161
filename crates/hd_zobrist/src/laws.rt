//! Laws over the definitions.
ghost use Rattle.std.specs.Prelude.{◌≡◌, List, [], ◌∷◌, true, false, pos};
ghost use Rattle.hd_task.specs.declared.state.State.{State};
ghost use Rattle.hd_zobrist.specs.declared.change.Change.{Change};
ghost use Rattle.hd_zobrist.specs.Hash.{state_hash, updated, LeadTo};

/// Law: the hash that is updated by the changes between two states is the hash from scratch.
pub fn updates_are_hashes()
    ensures { (from to : State) (changes : List Change)
        → LeadTo from changes to → updated (state_hash from) changes ≡ state_hash to }
{}

/// Law: an example, computed by the definition.
pub fn a_hash_computes()
    // A true atom alone: the first word of SplitMix64 from 0.
    ensures one_atom { state_hash (record { atoms = true ∷ []; fluents = [] })
        ≡ 16294208416658607535 }
    // The atoms 0 and 2 are true, and the fluent is 5.
    ensures fluent { state_hash (record {
      atoms = true ∷ false ∷ true ∷ [];
      fluents = pos 5 ∷ [];
    }) ≡ 4402082194763688882 }
{}
