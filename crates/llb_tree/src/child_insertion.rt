//! Puts children among others: each replaces the child that has the same name, or is inserted in the order of names.

ghost use Rattle.std.specs.Prelude.{◌≡◌, OnOk, OnErr, map};
ghost use Rattle.std.specs.Arc.{arc_value};
ghost use Rattle.std.specs.FinMap as finite;
ghost use Rattle.llb_tree.specs.Path.{name_cmp};
ghost use Rattle.llb_tree.specs.Nodes.{AreSorted, name_of, pair_of};
ghost use Rattle.llb_tree.specs.ChildPieces.{ArePieced, pairs_of};
ghost use Rattle.llb_tree.specs.Laying.{puts};

use crate::child_pieces::{make_room, second_owners};
use crate::edit::own;
use crate::node::{Child, Piece, place_of};
use std::alloc::{AllocError, Global};
use std::sync::Arc;

// Replaces the child of the same name, or inserts the child if there is none.
fn put_child(list: &mut Vec<Child>, child: Child) -> Result<(), AllocError>
    requires { AreSorted list.old.items }
    ensures ok { OnOk result (map pair_of list.new.items ≡ finite.put name_cmp (name_of child) child.node (map pair_of list.old.items)) }
    ensures err { OnErr result (map pair_of list.new.items ≡ map pair_of list.old.items) }
{
    match place_of(list.as_slice(), &child.name) {
        Ok(i) => {
            list[i].node = child.node;
            Ok(())
        }
        Err(i) => {
            list.insert(i, child)?;
            Ok(())
        }
    }
}

// Puts a child into a piece, as `put_child` does into a list. If the children of the piece are shared, they are copied first.
fn put_in(rows: &mut Arc<Vec<Child>>, alloc: Global, child: Child) -> Result<(), AllocError>
    requires { AreSorted (arc_value rows.old).items }
    ensures ok { OnOk result (map pair_of (arc_value rows.new).items
        ≡ finite.put name_cmp (name_of child) child.node (map pair_of (arc_value rows.old).items)) }
    ensures err { OnErr result (map pair_of (arc_value rows.new).items ≡ map pair_of (arc_value rows.old).items) }
{
    own(alloc, rows)?;
    match Arc::get_mut(rows) {
        // This is unreachable: after `own` there is a single owner.
        None => Err(AllocError),
        Some(list) => put_child(list, child),
    }
}

// Puts a child into the piece that the child's name belongs to, as `put_child` does into a list.
fn put_piece(pieces: &mut Vec<Piece>, alloc: Global, child: Child) -> Result<(), AllocError>
    requires { ArePieced pieces.old.items }
    ensures ok { OnOk result (pairs_of pieces.new.items ≡ finite.put name_cmp (name_of child) child.node (pairs_of pieces.old.items)) }
    ensures pieced { ArePieced pieces.new.items }
{
    let at = make_room(pieces, alloc, &child.name)?;
    let piece = &mut pieces[at];
    put_in(&mut piece.rows, alloc, child)
}

// Puts children among the children of a directory, each in place of the child with the same name, if there is one. A directory keeps its children
// in pieces. The new children go into copies of the pieces, and the copies replace the old pieces at the end. So a piece that no child goes into stays shared,
// and a refusal changes nothing.
pub(crate) fn put_all(
    kids: &mut Arc<Vec<Piece>>,
    alloc: Global,
    ready: Vec<Child>,
) -> Result<(), AllocError>
    requires { ArePieced (arc_value kids.old).items }
    ensures ok { OnOk result (pairs_of (arc_value kids.new).items ≡ puts (map pair_of ready.items) (pairs_of (arc_value kids.old).items)) }
    ensures pieced { ArePieced (arc_value kids.new).items }
    ensures err { OnErr result (pairs_of (arc_value kids.new).items ≡ pairs_of (arc_value kids.old).items) }
{
    if ready.is_empty() {
        return Ok(());
    }
    let mut pieces = second_owners(alloc, kids.as_slice())?;
    for child in ready {
        put_piece(&mut pieces, alloc, child)?;
    }
    *kids = Arc::new(alloc, pieces)?;
    Ok(())
}
