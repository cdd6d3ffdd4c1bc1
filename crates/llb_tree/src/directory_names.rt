//! The names in a directory.

ghost use Rattle.std.specs.Prelude.{◌≡◌};

use crate::name::Name;
use std::marker::Model;

/// The names in a directory, in the order of their bytes. Contracts see the list of the names.
pub struct Names {
    names: Vec<Name>,
}

impl Drop for Names {
    fn drop(self) {
        let Names { names: _ } = self;
    }
}

impl Model for Names {
    ghost use Rattle.std.specs.Prelude.{ℕ, List};

    ghost Value = { List (List ℕ) };

    ghost view = { λ n. n.names.items };
}

impl Names {
    pub(crate) fn new(names: Vec<Name>) -> Names
        ensures { result ≡ names.items }
    {
        Names { names }
    }

    /// Returns the names as a slice, in order.
    pub fn as_slice(&self) -> &[Name]
        ensures { result.now ≡ self.now }
    {
        self.names.as_slice()
    }
}
