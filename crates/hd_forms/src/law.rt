//! A law of forms.
ghost use Rattle.std.specs.Prelude.{◌≡◌};
ghost use Rattle.hd_forms.specs.declared.forms.TheConstants.{MOST_OPEN};

/// Law: at most 64 forms are open at once.
pub fn forms_are_shallow()
    ensures { MOST_OPEN ≡ 64 }
{}
