//! Laws over the definitions.
ghost use Rattle.std.specs.Prelude.{◌≡◌, [], ◌∷◌, true, false, length, pos, FitsSigned};
ghost use Rattle.std.specs.Int.{w64};
ghost use Rattle.std.specs.List.{AllByRecursion};
ghost use Rattle.hd_task.specs.declared.state.State.{State};
ghost use Rattle.hd_pack.specs.Packing.{packed_bytes, unpacked};

/// Law: a state is unpacked from its bytes and its number of atoms.
pub fn packings_are_unpacked()
    ensures { (s : State) → AllByRecursion (FitsSigned w64) s.fluents
        → unpacked (length s.atoms) (packed_bytes s) ≡ s }
{}

/// Law: equal packings are of equal states: no two states with as many atoms have the same bytes.
pub fn equal_packings_are_of_equal_states()
    ensures { (s t : State) → AllByRecursion (FitsSigned w64) s.fluents
        → AllByRecursion (FitsSigned w64) t.fluents → length s.atoms ≡ length t.atoms
        → packed_bytes s ≡ packed_bytes t → s ≡ t }
{}

/// Law: an example, computed by the definition.
pub fn a_packing_computes()
    // The atoms 0 and 2 of three are true.
    ensures atoms { packed_bytes (record {
      atoms = true ∷ false ∷ true ∷ [];
      fluents = [];
    }) ≡ 5 ∷ [] }
    // A fluent is 258.
    ensures fluents { packed_bytes (record { atoms = []; fluents = pos 258 ∷ [] })
        ≡ 2 ∷ 1 ∷ 0 ∷ 0 ∷ 0 ∷ 0 ∷ 0 ∷ 0 ∷ [] }
{}
