//! The items of a list in chunks, one after the other.
ghost use Rattle.std.specs.Prelude.{◌≡◌};
ghost use Rattle.std.specs.Iterator.{YieldsFirstBy, item_count};

use crate::chunks::Chunks;
use std::marker::Model;

/// The items of a list in chunks that are left.
#[derive(Drop)]
pub struct Iter<'a, T> {
    list: &'a Chunks<T>,
    /// The number of the next item.
    next: usize,
}

impl<'a, T> Model for Iter<'a, T> {
    ghost use Rattle.std.specs.Prelude.{List, drop};

    ghost Value = { List T };

    ghost view = { λ it. drop it.next it.list.now.items };
}

impl<'a, T> Iter<'a, T> {
    /// Returns all items of a list.
    pub(crate) fn of(list: &'a Chunks<T>) -> Iter<'a, T>
        ensures { result ≡ list.now.items }
    {
        Iter { list, next: 0 }
    }
}

impl<'a, T> Iterator for Iter<'a, T> {
    type Item = &'a T;

    ghost next_gives = { YieldsFirstBy (λ item. item.now) (λ rest. rest) };

    ghost remaining = { item_count (λ rest. rest) };

    fn next(&mut self) -> Option<&'a T> {
        if self.next >= self.list.len() {
            return None;
        }
        let item = self.list.at(self.next);
        self.next += 1;
        Some(item)
    }
}
