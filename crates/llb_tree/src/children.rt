//! The children of a directory, one after another. A directory keeps its children in pieces; `Children` has the rest of one piece and the
//! whole pieces after it.

ghost use Rattle.std.specs.Prelude.{◌≡◌, []};
ghost use Rattle.std.specs.Iterator.{YieldsFirstRef, item_count};
ghost use Rattle.llb_tree.specs.Nodes.{kids_in, left_in, SplitsFirst};

use crate::node::{Child, Piece};

/// Children in the order of their names: all children of a directory, or all that come after one child.
#[derive(Clone, Copy)]
pub struct Children<'a> {
    rows: &'a [Child],
    pieces: &'a [Piece],
}

impl<'a> Children<'a> {
    // Returns a `Children` that has no child.
    pub(crate) fn none() -> Children<'a>
        ensures { left_in result ≡ [] }
    {
        Children {
            rows: &[],
            pieces: &[],
        }
    }

    // Returns the children in these pieces.
    pub(crate) fn of(pieces: &'a [Piece]) -> Children<'a>
        ensures { left_in result ≡ kids_in pieces.now }
    {
        Children { rows: &[], pieces }
    }

    /// Returns the first child and the children after it; `None` if there are no children. Does not allocate.
    pub fn split_first(&self) -> Option<(&'a Child, Children<'a>)>
        ensures { SplitsFirst (left_in self.now) result }
    {
        if let Some((kid, rows)) = self.rows.split_first() {
            let pieces = self.pieces;
            return Some((kid, Children { rows, pieces }));
        }
        let mut pieces = self.pieces;
        while let Some((piece, rest)) = pieces.split_first() {
            if let Some((kid, rows)) = piece.rows.as_slice().split_first() {
                return Some((kid, Children { rows, pieces: rest }));
            }
            pieces = rest;
        }
        None
    }
}

impl<'a> Iterator for Children<'a> {
    type Item = &'a Child;

    ghost next_gives = { YieldsFirstRef left_in };

    ghost remaining = { item_count left_in };

    fn next(&mut self) -> Option<&'a Child> {
        let (kid, rest) = self.split_first()?;
        *self = rest;
        Some(kid)
    }
}
