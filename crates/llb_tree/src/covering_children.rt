//! Checks whether the children of the upper directory have all names of the lower directory's children. If so, laying the upper children over the lower ones
//! results in children with the names of the upper ones alone.

ghost use Rattle.std.specs.Prelude.{◌≡◌, IsTrue, IfSome, map};
ghost use Rattle.llb_tree.specs.Nodes.{kids_in, left_in, name_of};
ghost use Rattle.llb_tree.specs.Laying.{Covers, HasLater};

use crate::children::Children;
use crate::name::Name;
use crate::node::{Child, Piece};
use std::cmp::Ordering;

// Returns the children that come after the child with this name; `None` if no child has the name. The children must be in the order of their names.
fn after<'a>(kids: Children<'a>, name: &Name) -> Option<Children<'a>>
    ensures { IfSome result (λ more. HasLater name.now (left_in kids.entry) (left_in more)) }
{
    let mut rest = kids;
    while let Some((kid, more)) = rest.split_first() {
        match (*kid.name).cmp(name) {
            Ordering::Less => rest = more,
            Ordering::Equal => return Some(more),
            Ordering::Greater => return None,
        }
    }
    None
}

// Returns whether two lists of children have the same names, in the same order.
fn same_names(upper: &[Child], lower: &[Child]) -> bool
    ensures { IsTrue result → map name_of upper.now ≡ map name_of lower.now }
{
    if upper.len() != lower.len() {
        return false;
    }
    for (i, kid) in upper.iter().enumerate() {
        if *kid.name != *lower[i].name {
            return false;
        }
    }
    true
}

// Returns whether two lists of pieces have the same names, piece by piece.
fn are_alike(upper: &[Piece], lower: &[Piece]) -> bool
    ensures { IsTrue result → map name_of (kids_in upper.now) ≡ map name_of (kids_in lower.now) }
{
    if upper.len() != lower.len() {
        return false;
    }
    for (i, piece) in upper.iter().enumerate() {
        if !same_names(piece.rows.as_slice(), lower[i].rows.as_slice()) {
            return false;
        }
    }
    true
}

// Returns whether each name of the lower children is a name of an upper child. Often one of the two directories was made from the other and both have the same
// names, so the call first tests whether all names are the same.
pub(crate) fn covers(upper: &[Piece], lower: &[Piece]) -> bool
    ensures { IsTrue result → Covers (kids_in upper.now) (kids_in lower.now) }
{
    are_alike(upper, lower) || has_all(Children::of(upper), Children::of(lower))
}

// Returns whether each name of the lower children is a name of an upper child. Goes once through the lower and the upper children, both sorted by name.
fn has_all(upper: Children<'_>, lower: Children<'_>) -> bool
    ensures { IsTrue result → Covers (left_in upper.entry) (left_in lower.entry) }
{
    let mut rest = upper;
    let mut left = lower;
    while let Some((kid, others)) = left.split_first() {
        match after(rest, &kid.name) {
            None => return false,
            Some(more) => rest = more,
        }
        left = others;
    }
    true
}
