//! Names of types, which the items of a list share.
ghost use Rattle.std.specs.Prelude.{◌≡◌, IfOk};

use hd_base::NoMemory;
use hd_forms::NameAt;
use std::alloc::Global;
use std::marker::Model;
use std::rc::Rc;

/// The name of a type, with its place. All items of a list that stand before one `- type` share it,
/// so that a list takes no more memory for a type with a long name.
#[derive(Debug, Drop)]
pub struct TypeName {
    shared: Rc<NameAt>,
}

impl Model for TypeName {
    ghost use Rattle.hd_forms.specs.declared.names.NameAt.{NameAt};

    ghost Value = { NameAt };

    ghost view = { λ t. t.shared.value };
}

impl TypeName {
    /// Returns a name that is not shared yet.
    pub fn of(alloc: Global, name: NameAt) -> Result<TypeName, NoMemory>
        ensures { IfOk result (λ t. t ≡ name) }
    {
        Ok(TypeName {
            shared: Rc::new(alloc, name)?,
        })
    }

    /// Returns the same name once more.
    pub fn share(&self) -> Result<TypeName, NoMemory>
        ensures { IfOk result (λ t. t ≡ self.now) }
    {
        Ok(TypeName {
            shared: self.shared.clone()?,
        })
    }

    /// Returns the name, with its place.
    pub fn get(&self) -> &NameAt
        ensures { result.now ≡ self.now }
    {
        self.shared.as_ref()
    }
}
