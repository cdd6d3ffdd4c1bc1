//! The items of a part of a pattern.

ghost use Rattle.std.specs.Prelude.{◌↔◌, IsTrue};
ghost use Rattle.llb_glob.specs.Matching.{Takes};

use crate::class::Class;

/// An item of a part.
#[derive(Drop)]
pub enum Item {
    /// `*`: any run of characters, also an empty one.
    Run,
    /// One character, which the `Letter` has to match.
    One(Letter),
}

/// Which characters an item for one character matches.
#[derive(Drop)]
pub enum Letter {
    /// `?`: any character.
    Any,
    /// This character.
    Only(char),
    /// The characters that a class matches.
    In(Class),
}

impl Letter {
    /// Returns whether this `Letter` matches the character `letter`.
    pub fn takes(&self, letter: char) -> bool
        ensures { IsTrue result ↔ Takes self.now letter }
    {
        match self {
            Letter::Any => true,
            Letter::Only(only) => letter == *only,
            Letter::In(class) => class.takes(letter),
        }
    }
}
