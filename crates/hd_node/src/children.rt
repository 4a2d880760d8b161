//! Lists of children.
ghost use Rattle.std.specs.Prelude.{◌≡◌, ◌++◌, [], ◌∷◌, OnOk, length};

use crate::Child;
use hd_base::NoMemory;
use std::alloc::Global;
use std::marker::Model;

/// The children of an expansion, in order, which contracts see as the list of them.
///
/// They stand in a block of the allocator, so that an expansion, and an outcome with it, is small
/// wherever it is moved: more than half of the outcomes of a search may be duplicates, which have
/// no children.
#[derive(Debug, Drop)]
pub struct Children {
    items: Vec<Child>,
}

impl Model for Children {
    ghost use Rattle.std.specs.Prelude.{List};
    ghost use Rattle.hd_node.specs.Children.{ChildView};

    ghost Value = { List ChildView };

    ghost view = { λ c. c.items.items };
}

impl Children {
    /// Returns no children.
    pub(crate) fn none(alloc: Global) -> Children
        ensures { result ≡ [] }
    {
        Children {
            items: Vec::new(alloc),
        }
    }

    /// Reports whether the next child takes memory.
    pub(crate) fn is_full(&self) -> bool {
        self.items.len() == self.items.capacity()
    }

    /// Makes room for so many children in all.
    ///
    /// # Errors
    /// - `NoMemory`: there is none.
    pub(crate) fn reserve_all(&mut self, count: usize) -> Result<(), NoMemory>
        ensures { self.new ≡ self.old }
    {
        self.items
            .reserve_exact(count.saturating_sub(self.items.len()))?;
        Ok(())
    }

    /// Adds one child more.
    ///
    /// # Errors
    /// - `NoMemory`: there is no room for it.
    pub(crate) fn push(&mut self, child: Child) -> Result<(), NoMemory>
        ensures { OnOk result (self.new ≡ self.old ++ child ∷ []) }
    {
        self.items.push(child)?;
        Ok(())
    }

    /// Returns the children as a slice.
    pub fn as_slice(&self) -> &[Child]
        ensures { result.now ≡ self.now }
    {
        self.items.as_slice()
    }

    /// Returns how many there are.
    pub fn len(&self) -> usize
        ensures { result ≡ length self.now }
    {
        self.items.len()
    }

    /// Returns the children in a list of their own, in order.
    pub fn into_vec(self) -> Vec<Child>
        ensures { result.items ≡ self }
    {
        let Children { items } = self;
        items
    }
}
