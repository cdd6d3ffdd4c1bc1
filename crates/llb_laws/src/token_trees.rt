//! Checks whether a tree stands for another one: both are equal except for the contents of files, of which the first has tokens for some of the second.

ghost use Rattle.std.specs.Prelude.{◌↔◌, IsTrue, IfOk, option_map};
ghost use Rattle.llb_tree.specs.Nodes.{seen};
ghost use Rattle.llb_laws.specs.AlikeTrees.{AreAlike, AreLike, BothOptions};
ghost use Rattle.llb_laws.specs.TokenLists.{StandsFor};

use crate::token_byte_writers::has_mark;
use crate::token_expansion::is_spelled;
use llb_tree::{Entry, Tree};
use llb_wire::{Bytes, Memory, Same};

// Returns whether a content stands for another one.
fn stands_for(contents: &[Bytes], by_value: bool, first: &Bytes, second: &Bytes) -> bool
    ensures { IsTrue result ↔ StandsFor contents.now by_value first.now second.now }
{
    if by_value {
        return first.same(second) && !has_mark(first.as_slice());
    }
    is_spelled(contents, first.as_slice(), second.as_slice())
}

// Returns whether an entry stands for another one.
fn entry_stands(contents: &[Bytes], by_value: bool, first: Entry, second: Entry) -> bool
    ensures { IsTrue result ↔ AreLike (StandsFor contents.now by_value) (seen first.entry) (seen second.entry) }
{
    match first {
        Entry::Dir(meta) => match second {
            Entry::Dir(other) => meta.same(&other),
            Entry::File(..) => false,
        },
        Entry::File(meta, content) => match second {
            Entry::File(other, same) => {
                meta.same(&other) && stands_for(contents, by_value, content, same)
            }
            Entry::Dir(_) => false,
        },
    }
}

// Returns whether a tree stands for another one.
fn tree_stands(
    contents: &[Bytes],
    by_value: bool,
    first: &Tree,
    second: &Tree,
) -> Result<bool, Memory>
    ensures { IfOk result (λ is. IsTrue is ↔ AreAlike (StandsFor contents.now by_value) first.now second.now) }
{
    let mut walk = first.walk();
    let mut other = second.walk();
    while let Some((path, entry)) = walk.at() {
        let Some((place, same)) = other.at() else {
            return Ok(false);
        };
        if !path.same(place) {
            return Ok(false);
        }
        if !entry_stands(contents, by_value, entry, same) {
            return Ok(false);
        }
        walk.advance()?;
        other.advance()?;
    }
    Ok(other.at().is_none())
}

/// Returns whether there are two trees, of which the first stands for the second, or none.
pub(crate) fn trees_stand(
    contents: &[Bytes],
    by_value: bool,
    first: Option<&Tree>,
    second: Option<&Tree>,
) -> Result<bool, Memory>
    ensures { IfOk result (λ is. IsTrue is
        ↔ BothOptions (AreAlike (StandsFor contents.now by_value)) (option_map (λ t. t.now) first.entry) (option_map (λ t. t.now) second.entry)) }
{
    match first {
        Some(tree) => match second {
            Some(other) => tree_stands(contents, by_value, tree, other),
            None => Ok(false),
        },
        None => Ok(second.is_none()),
    }
}
