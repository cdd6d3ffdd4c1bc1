//! Matching without backtracking. The items are taken from the last to the first; a flag for each position of the name,
//! on the stack, says whether the items taken so far match the name from this position to its end. A name has at most 255
//! characters, so its positions are 0 to 255. An item changes the set of positions in one pass over the name.

ghost use Rattle.std.specs.Prelude.{◌↔◌, ℕ, ◌+◌, ◌<◌, ◌≤◌, List, ◌∷◌, length, IsTrue, slice_index};
ghost use Rattle.llb_glob.specs.Matching.{Takes, MatchesName};
ghost use Rattle.llb_glob.specs.PositionSets.{IsIn, Reaches, AreStarts};

use crate::item::{Item, Letter};

/// Returns whether items match the characters of a name. Each item is compared at each position of the name. A class is compared by its characters and ranges,
/// which are at most as many as the characters that the class is written with; so the number of comparisons is at most the number of characters of the
/// pattern's part, times the number of positions. Does not allocate.
pub fn matches_letters(items: &[Item], name: &[char]) -> bool
    requires { length name.now ≤ 255 }
    ensures { IsTrue result ↔ MatchesName items.now name.now }
{
    let mut places = [false; 256];
    places[name.len()] = true;
    for k in (0..items.len()).rev() {
        step_back(&items[k], name, &mut places);
    }
    places[0]
}

// Puts one more item before some items. Before the call, a position is in the set `places` if those items match the name from this position to its end; after
// the call, if this item followed by those items does.
fn step_back(item: &Item, name: &[char], places: &mut [bool])
    requires { length name.now < length places.old }
    ensures { (rest : List Item) → AreStarts rest name.now places.old → AreStarts (item.now ∷ rest) name.now places.new }
{
    match item {
        Item::Run => widen(name.len(), places),
        Item::One(letter) => narrow(letter, name, places),
    }
}

// Takes an item `*`: adds to the set `places` each position that is before some position of the set.
fn widen(last: usize, places: &mut [bool])
    requires { last < length places.old }
    ensures { (i : ℕ) → i ≤ last → IsIn places.new i ↔ Reaches places.old last i }
{
    for i in (0..last).rev() {
        if places[i + 1] {
            places[i] = true;
        }
    }
}

// Takes an item that matches one character, given as its `letter`: afterwards a position is in the set `places` if `letter` matches the character at this
// position and the next position was in the set before.
fn narrow(letter: &Letter, name: &[char], places: &mut [bool])
    requires { length name.now < length places.old }
    ensures before { (i : ℕ) → i < length name.now
        → IsIn places.new i ↔ (Takes letter.now (slice_index name.now i) × IsIn places.old (i + 1)) }
    ensures end { IsIn places.new (length name.now) → ⊥ }
{
    for i in 0..name.len() {
        places[i] = places[i + 1] && letter.takes(name[i]);
    }
    places[name.len()] = false;
}
