//! A value on the heap; contracts see the value alone.

ghost use Rattle.std.specs.Prelude.{◌≡◌, IfOk};

use crate::fault::Memory;
use crate::same::Same;
use std::alloc::Global;
use std::marker::Model;

/// A value on the heap. An enum stays small if its large values are boxed in this way.
pub struct Boxed<T> {
    place: Box<T>,
}

impl<T: Drop> Drop for Boxed<T> {
    fn drop(self) {
        let Boxed { place: _ } = self;
    }
}

impl<T> Model for Boxed<T> {
    ghost Value = { T };

    ghost view = { λ b. b.place.value };
}

impl<T: Drop> Boxed<T> {
    /// Puts the value on the heap. Fails with 5 `Memory` alone, and then the value is dropped.
    pub fn new(alloc: Global, value: T) -> Result<Boxed<T>, Memory>
        ensures { IfOk result (λ b. b ≡ value) }
    {
        let place = Box::new(alloc, value)?;
        Ok(Boxed { place })
    }
}

impl<T> Boxed<T> {
    /// Returns a reference to the value.
    pub fn get(&self) -> &T
        ensures { result.now ≡ self.now }
    {
        &self.place
    }

    /// Returns the value itself.
    pub fn into_inner(self) -> T
        ensures { result ≡ self }
    {
        let Boxed { place } = self;
        Box::into_inner(place)
    }
}

impl<T: Same> Same for Boxed<T> {
    fn same(&self, other: &Boxed<T>) -> bool {
        self.get().same(other.get())
    }
}
