//! The public type of lists that own their items. Contracts see the list of the items' values.

ghost use Rattle.std.specs.Prelude.{◌≡◌, ◌==◌, length};

use crate::same::{Same, all_same};
use std::alloc::Global;
use std::marker::Model;

/// A list that owns its items. Contracts see the list of their values.
#[derive(Debug)]
pub struct Many<T> {
    items: Vec<T>,
}

impl<T: Drop> Drop for Many<T> {
    fn drop(self) {
        let Many { items: _ } = self;
    }
}

impl<T> Model for Many<T> {
    ghost use Rattle.std.specs.Prelude.{List};

    ghost Value = { List T };

    ghost view = { λ m. m.items.items };
}

impl<T> Many<T> {
    /// Makes a list of these items, without a copy.
    pub fn new(items: Vec<T>) -> Many<T>
        ensures { result ≡ items.items }
    {
        Many { items }
    }

    /// Returns the items as a slice.
    pub fn as_slice(&self) -> &[T]
        ensures { result.now ≡ self.now }
    {
        self.items.as_slice()
    }

    /// Returns the number of items.
    pub fn len(&self) -> usize
        ensures { result ≡ length self.now }
    {
        self.items.len()
    }

    /// Returns whether there are no items.
    pub fn is_empty(&self) -> bool
        ensures { result ≡ (length self.now == 0) }
    {
        self.items.is_empty()
    }

    /// Returns the allocator of the items. This call has no clause, since contracts do not see allocators; there is only one allocator.
    pub fn allocator(&self) -> Global {
        *self.items.allocator()
    }

    /// Returns the items as a vector, without a copy.
    pub fn into_vec(self) -> Vec<T>
        ensures { result.items ≡ self }
    {
        let Many { items } = self;
        items
    }
}

impl<T: Same> Same for Many<T> {
    fn same(&self, other: &Many<T>) -> bool {
        all_same(self.as_slice(), other.as_slice())
    }
}
