//! Classes of characters, as `[a-z]` in a pattern. A class is built item by item while its part is read. Which characters a class matches depends only on
//! its items and on whether it excludes them.

ghost use Rattle.std.specs.Prelude.{◌≡◌, ◌↔◌, ◌++◌, false, true, [], ◌∷◌, IsTrue, OnOk};
ghost use Rattle.std.specs.List.{list_any};
ghost use Rattle.llb_glob.specs.Class.{ClassTakes, is_in_span, none_yet, one_alone, extended};

use std::alloc::{AllocError, Global};
use std::marker::Model;

/// An item of a class: the characters from `low` to `high`, by scalar value. For a single character, both ends are that
/// character. A span whose low end is above its high end is empty.
#[derive(Clone, Copy)]
pub struct Span {
    pub low: char,
    pub high: char,
}

impl Span {
    /// Returns whether a character is in the span.
    pub fn has(&self, letter: char) -> bool
        ensures { result ≡ is_in_span self.now letter }
    {
        self.low <= letter && letter <= self.high
    }
}

/// A class of characters. Contracts see its items, and whether it excludes; a class that excludes matches exactly the characters that are in no item.
pub struct Class {
    excludes: bool,
    spans: Vec<Span>,
}

impl Drop for Class {
    fn drop(self) {
        let Class {
            excludes: _,
            spans: _,
        } = self;
    }
}

impl Model for Class {
    ghost use Rattle.llb_glob.specs.ClassValue.{ClassValue};

    ghost Value = { ClassValue };

    ghost view = { λ k. record { excludes = k.excludes; spans = k.spans.items } };
}

impl Class {
    /// Makes a class with no item yet. Does not allocate.
    pub fn new(alloc: Global) -> Class
        ensures { result ≡ none_yet }
    {
        Class {
            excludes: false,
            spans: Vec::new(alloc),
        }
    }

    /// Makes the class match exactly the characters that are in none of its items.
    pub fn exclude(&mut self)
        ensures { self.new ≡ record self.old { excludes = true } }
    {
        self.excludes = true;
    }

    /// Adds an item: a single character. Fails only for want of memory.
    pub fn add(&mut self, letter: char) -> Result<(), AllocError>
        ensures ok { OnOk result (self.new ≡ record self.old { spans = self.old.spans ++ one_alone letter ∷ [] }) }
    {
        self.spans.push(Span {
            low: letter,
            high: letter,
        })?;
        Ok(())
    }

    /// Sets the high end of the class's last item, a range of characters; does nothing if the class has no items.
    pub fn extend(&mut self, high: char)
        ensures { self.new ≡ record self.old { spans = extended self.old.spans high } }
    {
        if let Some(last) = self.spans.last_mut() {
            last.high = high;
        }
    }

    /// Returns whether the class matches a character.
    pub fn takes(&self, letter: char) -> bool
        ensures { IsTrue result ↔ ClassTakes self.now letter }
    {
        self.lists(letter) != self.excludes
    }

    // Returns whether a character is in one of the items.
    fn lists(&self, letter: char) -> bool
        ensures { result ≡ list_any (λ span. is_in_span span letter) self.now.spans }
    {
        self.spans.iter().any(|span| span.has(letter))
    }
}
