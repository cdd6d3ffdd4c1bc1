//! A part of a pattern, and how it is read. A path matches a pattern if it has as many names as the pattern has parts, and each
//! name matches the part at its index.

ghost use Rattle.std.specs.Prelude.{◌≡◌, ◌↔◌, ◌≤◌, ◌∷◌, ℕ, List, length, is_ok, IsTrue};
ghost use Rattle.std.specs.Str.{chars};
ghost use Rattle.llb_glob.specs.CallResults.{Gives};
ghost use Rattle.llb_glob.specs.ItemReading.{items_of};
ghost use Rattle.llb_glob.specs.Matching.{MatchesName};

use crate::class::Class;
use crate::fault::PatternFault;
use crate::item::{Item, Letter};
use crate::name_characters::Letters;
use crate::part_reading::{Cursor, Effect};
use crate::position_sets::matches_letters;
use llb_tree::{Name, NameTest};
use std::alloc::Global;
use std::marker::Model;
use std::mem;

/// A part of a pattern: a test of one name. Contracts see the list of its items.
pub struct Part {
    items: Vec<Item>,
}

impl Drop for Part {
    fn drop(self) {
        let Part { items: _ } = self;
    }
}

impl Model for Part {
    ghost use Rattle.std.specs.Prelude.{List};
    ghost use Rattle.llb_glob.specs.declared.item.Item.{Item};

    ghost Value = { List Item };

    ghost view = { λ p. p.items.items };
}

impl Part {
    // Reads a text as a part. Fails with 41 `BadPattern` if the text spells no part, or with 42 `Memory`.
    pub(crate) fn read(alloc: Global, text: &str) -> Result<Part, PatternFault>
        requires { length text.now ≤ 255 }
        ensures { Gives (λ p. p) result (items_of (chars text.now)) }
    {
        let letters = Letters::of(text);
        let mut reading = Reading {
            cursor: Cursor::start(),
            items: Vec::new(alloc),
            class: Class::new(alloc),
        };
        for letter in letters.as_slice() {
            reading.take(alloc, *letter)?;
        }
        if !reading.cursor.is_whole() {
            return Err(PatternFault::BadPattern);
        }
        Ok(Part {
            items: reading.items,
        })
    }

    // Returns whether a name matches this part.
    pub(crate) fn matches(&self, name: &str) -> bool
        requires { length name.now ≤ 255 }
        ensures { IsTrue result ↔ MatchesName self.now (chars name.now) }
    {
        let letters = Letters::of(name);
        matches_letters(self.items.as_slice(), letters.as_slice())
    }
}

impl NameTest for Part {
    ghost use Rattle.std.specs.Str.{chars};
    ghost use Rattle.llb_glob.specs.Matching.{name_matches};

    ghost passes = { λ part name. name_matches part (chars name) };

    fn passes(&self, name: &Name) -> bool {
        self.matches(name.as_str())
    }
}

/// The state while a part is read: the cursor, the items so far, and the current class.
#[derive(Drop)]
pub struct Reading {
    cursor: Cursor,
    items: Vec<Item>,
    class: Class,
}

impl Reading {
    ghost use Rattle.llb_glob.specs.PartReading.{ahead, Reads};

    // Reads the next character. Fails with 41 `BadPattern` or 42 `Memory`.
    fn take(&mut self, alloc: Global, letter: char) -> Result<(), PatternFault>
        ensures { (rest : List ℕ) → Reads result (ahead self.old (letter ∷ rest)) (ahead self.new rest) }
    {
        let (cursor, effect) = self.cursor.cut(letter)?;
        self.cursor = cursor;
        match effect {
            Effect::Nothing => {}
            Effect::Whole(item) => self.items.push(item)?,
            Effect::Exclude => self.class.exclude(),
            Effect::Add(letter) => self.class.add(letter)?,
            Effect::Extend(high) => self.class.extend(high),
            Effect::Close => {
                let class = mem::replace(&mut self.class, Class::new(alloc));
                self.items.push(Item::One(Letter::In(class)))?;
            }
        }
        Ok(())
    }
}

/// Returns whether a text spells a part. Does not allocate.
pub fn is_part(text: &str) -> bool
    requires { length text.now ≤ 255 }
    ensures { result ≡ is_ok (items_of (chars text.now)) }
{
    let letters = Letters::of(text);
    let mut cursor = Cursor::start();
    for letter in letters.as_slice() {
        let Ok((next, _)) = cursor.cut(*letter) else {
            return false;
        };
        cursor = next;
    }
    cursor.is_whole()
}
