//! Equality by value: two values are the same if what contracts see of them is equal. This file implements `Same` for numbers, flags, options
//! and slices; the types of this crate implement it in their own files. Nothing here allocates.

ghost use Rattle.std.specs.Prelude.{◌≡◌, ◌↔◌, IsTrue};

/// Types whose values can be compared by what contracts see of them.
pub trait Same {
    /// Returns whether what contracts see of this value equals what they see of the other. Does not allocate.
    fn same(&self, other: &Self) -> bool
        ensures { IsTrue result ↔ (self.now ≡ other.now) };
}

/// Returns whether both lists have the same values in the same order. Does not allocate.
pub fn all_same<T: Same>(items: &[T], others: &[T]) -> bool
    ensures { IsTrue result ↔ (items.now ≡ others.now) }
{
    if items.len() != others.len() {
        return false;
    }
    for i in 0..items.len() {
        if !items[i].same(&others[i]) {
            return false;
        }
    }
    true
}

impl<T: Same> Same for Option<T> {
    fn same(&self, other: &Option<T>) -> bool {
        match (self, other) {
            (Some(value), Some(other)) => value.same(other),
            (None, None) => true,
            _ => false,
        }
    }
}

impl Same for bool {
    fn same(&self, other: &bool) -> bool {
        self == other
    }
}

impl Same for u32 {
    fn same(&self, other: &u32) -> bool {
        self == other
    }
}

impl Same for i32 {
    fn same(&self, other: &i32) -> bool {
        self == other
    }
}

impl Same for i64 {
    fn same(&self, other: &i64) -> bool {
        self == other
    }
}

impl Same for usize {
    fn same(&self, other: &usize) -> bool {
        self == other
    }
}
