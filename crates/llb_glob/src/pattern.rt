//! Patterns. A text is split like the text of a path, and each part is then read as items. Reading first checks the text once without allocating, so that a bad
//! pattern can't be hidden by want of memory, and then makes the pattern.

ghost use Rattle.std.specs.Prelude.{◌≡◌, ◌↔◌, List, ℕ, [], is_ok, IsTrue};
ghost use Rattle.llb_tree.specs.Path.{enter};
ghost use Rattle.llb_glob.specs.CallResults.{Gives, MemoryLast};
ghost use Rattle.llb_glob.specs.Matching.{Matches, path_matches};
ghost use Rattle.llb_glob.specs.Pattern.{each_cut, pattern_of};

use crate::fault::PatternFault;
use crate::part::{Part, is_part};
use llb_tree::{Name, Path};
use std::alloc::Global;
use std::marker::Model;

/// A pattern: at most 128 parts, from the root down. Contracts see the list of its parts, each as the list of its items.
pub struct Pattern {
    parts: Vec<Part>,
}

impl Drop for Pattern {
    fn drop(self) {
        let Pattern { parts: _ } = self;
    }
}

impl Model for Pattern {
    ghost use Rattle.std.specs.Prelude.{List};
    ghost use Rattle.llb_glob.specs.declared.item.Item.{Item};

    ghost Value = { List (List Item) };

    ghost view = { λ p. p.parts.items };
}

impl Pattern {
    /// Reads a text as a pattern: the text is split at `/`, empty parts and `.` are dropped, `..` removes the last part and stops at the root, and each part
    /// that remains is cut into items: `*` matches any run of characters, `?` any one character, `[..]` one character that is in an item of the class, `[^..]`
    /// one character that is in no item of the class, `\c` the character `c`; any other character matches itself. An item of a class is a character or a range
    /// `lo-hi`. Fails with 41 `BadPattern` at a part that is no name or is the 129th, also if a later `..` would remove it, and if a part that remains ends in
    /// a lone `\` or has a class that is empty, not closed or misspelled. Fails with 42 `Memory` if memory is refused and there is no other fault.
    pub fn read(alloc: Global, text: &str) -> Result<Pattern, PatternFault>
        ensures gives { Gives (λ p. p) result (pattern_of text.now) }
        ensures last { MemoryLast result (pattern_of text.now) }
    {
        if !is_pattern(text) {
            return Err(PatternFault::BadPattern);
        }
        let path = Path::read(alloc, text)?;
        Pattern::cut(alloc, &path)
    }

    // Reads each name of a path as items.
    fn cut(alloc: Global, path: &Path) -> Result<Pattern, PatternFault>
        ensures { Gives (λ p. p) result (each_cut path.now) }
    {
        let mut parts = Vec::new(alloc);
        for name in path.names() {
            let part = Part::read(alloc, name.as_str())?;
            parts.push(part)?;
        }
        Ok(Pattern { parts })
    }

    /// Returns whether a path matches: it has as many names as the pattern has parts, and each name matches the part at
    /// its index.
    pub fn matches(&self, path: &Path) -> bool
        ensures relation { IsTrue result ↔ Matches self.now path.now }
        ensures test { result ≡ path_matches self.now path.now }
    {
        all_match(&self.parts, path.names())
    }

    /// Returns the parts, from the root down. Part `i` is a test of the name that a path has at index `i`.
    pub fn parts(&self) -> &[Part]
        ensures { result.now ≡ self.now }
    {
        &self.parts
    }

    /// Returns whether the pattern has no parts, so that only the root matches.
    pub fn has_no_parts(&self) -> bool
        ensures { IsTrue result ↔ (self.now ≡ []) }
    {
        self.parts.is_empty()
    }
}

// Returns whether there are as many names as parts, and each name matches the part at its index.
fn all_match(parts: &[Part], names: &[Name]) -> bool
    ensures { IsTrue result ↔ Matches parts.now names.now }
{
    if parts.len() != names.len() {
        return false;
    }
    for (part, name) in parts.iter().zip(names) {
        if !part.matches(name.as_str()) {
            return false;
        }
    }
    true
}

// Returns whether a text reads as a pattern. Does not allocate.
fn is_pattern(text: &str) -> bool
    ensures { result ≡ is_ok (pattern_of text.now) }
{
    let mut walk = Walk { depth: 0, sound: 0 };
    for part in text.split('/') {
        if !walk.enter(part) {
            return false;
        }
    }
    walk.sound == walk.depth
}

// Two counts of the path that the parts of a text spell so far: `depth`, how many names the path has; and `sound`, how many of these names are before the
// first name that spells no part of a pattern.
#[derive(Drop)]
struct Walk {
    depth: usize,
    sound: usize,
}

impl Walk {
    ghost use Rattle.llb_glob.specs.TextCheckCounts.{Stands, Enters};

    // Applies the next part of a text: changes the two counts as the part changes the path, by the definition `enter` of `llb_tree`. Returns false if `enter`
    // refuses the part.
    fn enter(&mut self, part: &str) -> bool
        ensures { (path : List (List ℕ)) → Stands path self.old → Enters (enter path part.now) result self.new }
    {
        if part.is_empty() {
            return true;
        }
        if part.as_bytes() == b".".as_slice() {
            return true;
        }
        if part.as_bytes() == b"..".as_slice() {
            self.depth = self.depth.saturating_sub(1);
            self.sound = self.sound.min(self.depth);
            return true;
        }
        if !Name::is_name(part) {
            return false;
        }
        if self.depth >= 128 {
            return false;
        }
        if self.sound == self.depth && is_part(part) {
            self.sound += 1;
        }
        self.depth += 1;
        true
    }
}
