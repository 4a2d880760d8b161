//! The terms of an atom.
ghost use Rattle.std.specs.Prelude.{◌≡◌, ◌==◌, IfOk, length};
ghost use Rattle.std.specs.Cmp.Lexicographic.{pointwise, lists_equiv, lists_per};
ghost use Rattle.hd_terms.specs.Terms.{terms_held};

use crate::tree::Term;
use hd_base::exact;
use std::alloc::{AllocError, Global};
use std::marker::Model;
use std::slice;

/// Where the terms lie. Up to two take no more memory than they are wide.
#[derive(Debug, Drop)]
enum TermStore {
    None,
    One(Box<Term>),
    Two(Box<[Term; 2]>),
    Many(Box<Vec<Term>>),
}

/// The terms of an atom, mostly few and often none: in two words, so that an atom is five.
/// Contracts see their list.
#[derive(Debug, Drop)]
pub struct Terms {
    held: TermStore,
}

impl Model for Terms {
    ghost use Rattle.std.specs.Prelude.{List};
    ghost use Rattle.hd_terms.specs.Terms.{terms_held};
    ghost use Rattle.hd_terms.specs.declared.tree.Term.{Term};

    ghost Value = { List Term };

    ghost view = { λ t. terms_held t.held };
}

impl Terms {
    /// Returns the terms of a `Vec`, in its order.
    ///
    /// # Errors
    /// - Lack of memory.
    pub fn of(alloc: Global, items: Vec<Term>) -> Result<Terms, AllocError>
        ensures { IfOk result (λ t. t ≡ items.items) }
    {
        if items.len() > 2 {
            let items = exact(alloc, items)?;
            let held = TermStore::Many(Box::new(alloc, items)?);
            return Ok(Terms { held });
        }
        let mut items = items;
        let Some(last) = items.pop() else {
            return Ok(Terms {
                held: TermStore::None,
            });
        };
        let held = match items.pop() {
            Some(first) => TermStore::Two(Box::new(alloc, [first, last])?),
            None => TermStore::One(Box::new(alloc, last)?),
        };
        Ok(Terms { held })
    }

    /// Returns the terms as a slice.
    pub fn as_slice(&self) -> &[Term]
        ensures { result.now ≡ self.now }
    {
        match &self.held {
            TermStore::None => &[],
            TermStore::One(item) => slice::from_ref(item.as_ref()),
            TermStore::Two(items) => items.as_ref().as_slice(),
            TermStore::Many(items) => items.as_ref().as_slice(),
        }
    }

    /// Returns how many terms there are.
    pub fn len(&self) -> usize
        ensures { result ≡ length self.now }
    {
        self.as_slice().len()
    }

    /// Reports whether there are none.
    pub fn is_empty(&self) -> bool
        ensures { result ≡ (length self.now == 0) }
    {
        self.as_slice().is_empty()
    }
}

impl PartialEq for Terms {
    ghost use Rattle.hd_terms.specs.contracts.tree.TermPartialEq.TheImpl as term_eq;
    ghost use Rattle.hd_terms.specs.contracts.tree.TermPartialEq.TheImpl.Laws as of_term;

    ghost eq = { λ s t. pointwise (term_eq.ghosts).eq s t };

    ghost laws = { lists_per of_term.laws-law };

    fn eq(&self, other: &Self) -> bool {
        self.as_slice() == other.as_slice()
    }
}

impl Eq for Terms {
    ghost use Rattle.hd_terms.specs.contracts.tree.TermEq.TheImpl.Laws as of_term;

    ghost laws = { lists_equiv of_term.laws-law };
}
