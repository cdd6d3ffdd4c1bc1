//! If the upper children replace the lower ones, an overlay writes its changes into a copy of the list of upper children or
//! upper pieces. The copy is made only when something is first written into it.

ghost use Rattle.std.specs.Prelude.{◌≡◌, ◌<◌, length, IfOk, map, set};
ghost use Rattle.llb_tree.specs.Nodes.{pair_of};
ghost use Rattle.llb_tree.specs.ChildPieces.{row_pairs};
ghost use Rattle.llb_tree.specs.Laying.{those, those_pieces, written};

use crate::child_pieces::second_owners;
use crate::edit::copies;
use crate::node::{Child, Node, Piece};
use std::alloc::{AllocError, Global};

// Replaces the node of the child at an index in `made`, the copy of the upper children; if there is no copy yet, makes one
// first. Returns the copy.
pub(crate) fn with_node(
    made: Option<Vec<Child>>,
    alloc: Global,
    upper: &[Child],
    i: usize,
    node: Node,
) -> Result<Vec<Child>, AllocError>
    requires { i < length (those made upper.now) }
    ensures { IfOk result (λ v. map pair_of v.items ≡ written i node (map pair_of (those made upper.now))) }
{
    let mut list = match made {
        Some(list) => list,
        None => copies(alloc, upper)?,
    };
    list[i].node = node;
    Ok(list)
}

// Replaces the children of the piece at an index in `made`, the copy of the upper pieces; if there is no copy yet, makes one
// first. Returns the copy.
pub(crate) fn with_rows(
    made: Option<Vec<Piece>>,
    alloc: Global,
    upper: &[Piece],
    i: usize,
    rows: Vec<Child>,
) -> Result<Vec<Piece>, AllocError>
    requires { i < length (those_pieces made upper.now) }
    ensures { IfOk result (λ v. map row_pairs v.items ≡ set (map row_pairs (those_pieces made upper.now)) i (map pair_of rows.items)) }
{
    let mut list = match made {
        Some(list) => list,
        None => second_owners(alloc, upper)?,
    };
    list[i] = Piece::of(alloc, rows)?;
    Ok(list)
}
