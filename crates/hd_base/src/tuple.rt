//! Tuples of arguments, which are short.
ghost use Rattle.std.specs.Prelude.{◌≡◌, ◌==◌, List, length};
ghost use Rattle.std.specs.Cmp.Lexicographic.{pointwise, slice_cmp, slice_partial_cmp, lists_equiv, lists_per, lists_po, lists_total, lists_agrees, lists_ties};
ghost use Rattle.std.specs.Hash as fed;
ghost use Rattle.std.specs.Hash.{items_Alike};

use smallvec::SmallVec;
use std::cmp::Ordering;
use std::hash::{Hash, Hasher};
use std::marker::Model;

/// A short list, which contracts see as the list of its items, without its capacity and its
/// address.
///
/// Up to four items do not allocate of their own.
#[derive(Debug, Drop)]
pub struct Tuple<T> {
    items: SmallVec<T, 4>,
}

impl<T> Model for Tuple<T> {
    ghost Value = { List T };

    ghost view = { λ t. t.items.items };
}

impl<T> Tuple<T> {
    /// Returns the items of a `SmallVec`, in its order.
    pub fn from_small_vec(items: SmallVec<T, 4>) -> Tuple<T>
        ensures { result ≡ items.items }
    {
        Tuple { items }
    }

    /// Returns the items as a slice.
    pub fn as_slice(&self) -> &[T]
        ensures { result.now ≡ self.now }
    {
        self.items.as_slice()
    }

    /// Returns how many items there are.
    pub fn len(&self) -> usize
        ensures { result ≡ length self.now }
    {
        self.items.len()
    }

    /// Reports whether there are none.
    pub fn is_empty(&self) -> bool
        ensures { result ≡ (length self.now == 0) }
    {
        self.items.is_empty()
    }
}

impl<T: PartialEq> PartialEq for Tuple<T> {
    ghost eq = { λ s t. pointwise T.eq s t };

    ghost laws = { lists_per T.laws };

    fn eq(&self, other: &Self) -> bool {
        self.as_slice() == other.as_slice()
    }
}

impl<T: Eq> Eq for Tuple<T> {
    ghost laws = { lists_equiv T.Eq.laws };
}

/// Tuples are ordered by the first place where they differ; one that ends before comes first.
impl<T: PartialOrd> PartialOrd for Tuple<T> {
    ghost partial_cmp = { λ s t. slice_partial_cmp T.partial_cmp s t };

    ghost laws = { lists_po T.PartialOrd.laws };

    fn partial_cmp(&self, other: &Self) -> Option<Ordering> {
        self.as_slice().partial_cmp(&other.as_slice())
    }
}

impl<T: Ord> Ord for Tuple<T> {
    ghost cmp = { λ s t. slice_cmp T.cmp s t };

    ghost total = { lists_total T.total };

    ghost matches_partial_cmp = { λ s t. lists_agrees T.matches_partial_cmp s t };

    ghost matches_eq = { λ s t. lists_ties T.cmp T.matches_eq s t };

    fn cmp(&self, other: &Self) -> Ordering {
        self.as_slice().cmp(&other.as_slice())
    }
}

impl<T: Hash> Hash for Tuple<T> {
    ghost hash_input = { λ t. fed.slice T.hash_input t };

    ghost respects_eq = { (items_Alike (record { fed = T.respects_eq })).fed };

    fn hash<H: Hasher>(&self, state: &mut H) {
        self.as_slice().hash(state);
    }
}
