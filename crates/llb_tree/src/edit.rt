//! Edits of nodes that may be shared. Before a directory is changed, its list of pieces and the children in the piece to be changed are copied, if they have
//! other owners. What is below these children stays shared, and the other owners see no change. So an edit copies, for each directory on the edit's path, the
//! directory's list of pieces and one piece.

ghost use Rattle.std.specs.Prelude.{[], Ok, Err, ◌≡◌, ◌<◌, ◌≤◌, ℕ, List, length, map, option_map, IfOk, OnOk, OnErr};
ghost use Rattle.std.specs.Arc.{arc_value};
ghost use Rattle.std.specs.FinMap as finite;
ghost use Rattle.llb_tree.specs.Nodes.{AreSorted, pair_of, place, set_look};
ghost use Rattle.llb_tree.specs.ChildPieces.{ArePieced, Changes, pairs_of};

use crate::child_pieces::{drop_empty, make_room, own_list};
use crate::name::Name;
use crate::node::{Child, Kind, Node, Piece, place_of};
use std::alloc::{AllocError, Global};
use std::sync::Arc;

// Copies children into a list with room for one more. Their names and nodes are shared.
pub(crate) fn copies(alloc: Global, kids: &[Child]) -> Result<Vec<Child>, AllocError>
    ensures { IfOk result (λ v. map pair_of v.items ≡ map pair_of kids.now) }
{
    let mut copied = Vec::new(alloc);
    copied.reserve(kids.len() + 1)?;
    for kid in kids {
        copied.push(kid.copy()?)?;
    }
    Ok(copied)
}

// Replaces a shared list of children by a copy that has one owner. The trees that the children represent are unchanged.
pub(crate) fn own(alloc: Global, kids: &mut Arc<Vec<Child>>) -> Result<(), AllocError>
    ensures { map pair_of (arc_value kids.new).items ≡ map pair_of (arc_value kids.old).items }
{
    if Arc::strong_count(kids) == 1 {
        return Ok(());
    }
    let copied = copies(alloc, kids.as_slice())?;
    *kids = Arc::new(alloc, copied)?;
    Ok(())
}

// Replaces the node at the path `rest` below the child `name` (the child's own node if `rest` is empty) by `branch`; removes it if `branch` is `None`.
#[cycle(set)]
fn set_in(
    list: &mut Vec<Child>,
    alloc: Global,
    name: &Name,
    rest: &[Name],
    branch: Option<Node>,
) -> Result<(), AllocError>
    requires { AreSorted list.old.items }
    ensures ok { OnOk result (Changes name.now rest.now branch (map pair_of list.old.items) (map pair_of list.new.items)) }
    ensures err { OnErr result (map pair_of list.new.items ≡ map pair_of list.old.items) }
{
    match place_of(list.as_slice(), name) {
        Ok(i) => {
            if rest.is_empty() {
                set_child(list, i, branch);
                return Ok(());
            }
            let kid = &mut list[i];
            kid.node.set(alloc, rest, branch)
        }
        Err(i) => {
            if !rest.is_empty() {
                return Err(AllocError);
            }
            insert_child(list, alloc, i, name, branch)
        }
    }
}

// Does in a piece (some of a directory's children) what `set_in` does in a list of children: replaces or removes the node at a path. If the children of the
// piece are shared with another tree, they are copied first.
#[cycle(set)]
fn set_rows(
    rows: &mut Arc<Vec<Child>>,
    alloc: Global,
    name: &Name,
    rest: &[Name],
    branch: Option<Node>,
) -> Result<(), AllocError>
    requires { AreSorted (arc_value rows.old).items }
    ensures ok { OnOk result (Changes name.now rest.now branch (map pair_of (arc_value rows.old).items) (map pair_of (arc_value rows.new).items)) }
    ensures err { OnErr result (map pair_of (arc_value rows.new).items ≡ map pair_of (arc_value rows.old).items) }
{
    own(alloc, rows)?;
    match Arc::get_mut(rows) {
        // This is unreachable: after `own` there is a single owner.
        None => Err(AllocError),
        Some(list) => set_in(list, alloc, name, rest, branch),
    }
}

// Does what `set_in` does (it replaces or removes what is at a path below the child `name`), in the piece of the children to which `name` belongs.
#[cycle(set)]
fn set_piece(
    pieces: &mut Vec<Piece>,
    alloc: Global,
    name: &Name,
    rest: &[Name],
    branch: Option<Node>,
) -> Result<(), AllocError>
    requires { ArePieced pieces.old.items }
    ensures ok { OnOk result (Changes name.now rest.now branch (pairs_of pieces.old.items) (pairs_of pieces.new.items)) }
    ensures err { OnErr result (pairs_of pieces.new.items ≡ pairs_of pieces.old.items) }
    ensures pieced { ArePieced pieces.new.items }
{
    let at = make_room(pieces, alloc, name)?;
    let piece = &mut pieces[at];
    set_rows(&mut piece.rows, alloc, name, rest, branch)?;
    drop_empty(pieces, at);
    Ok(())
}

// Does what `set_piece` does, in a list of pieces that may be shared; a shared list is copied first.
#[cycle(set)]
fn set_below(
    kids: &mut Arc<Vec<Piece>>,
    alloc: Global,
    name: &Name,
    rest: &[Name],
    branch: Option<Node>,
) -> Result<(), AllocError>
    requires { ArePieced (arc_value kids.old).items }
    ensures ok { OnOk result (Changes name.now rest.now branch (pairs_of (arc_value kids.old).items) (pairs_of (arc_value kids.new).items)) }
    ensures err { OnErr result (pairs_of (arc_value kids.new).items ≡ pairs_of (arc_value kids.old).items) }
    ensures pieced { ArePieced (arc_value kids.new).items }
{
    own_list(alloc, kids)?;
    match Arc::get_mut(kids) {
        // This is unreachable: after `own_list` there is a single owner.
        None => Err(AllocError),
        Some(pieces) => set_piece(pieces, alloc, name, rest, branch),
    }
}

// Replaces the child at an index by a node, or removes the child if no node is given.
fn set_child(list: &mut Vec<Child>, i: usize, branch: Option<Node>)
    requires within { i < length list.old.items }
    requires sorted { AreSorted list.old.items }
    ensures { (n : List ℕ) → Ok i ≡ place n list.old.items → Changes n [] branch (map pair_of list.old.items) (map pair_of list.new.items) }
{
    match branch {
        Some(node) => list[i].node = node,
        None => {
            let _gone = list.remove(i);
        }
    }
}

// Inserts a child with this name and this node at the index where the name belongs; does nothing if no node is given.
fn insert_child(
    list: &mut Vec<Child>,
    alloc: Global,
    i: usize,
    name: &Name,
    branch: Option<Node>,
) -> Result<(), AllocError>
    requires sorted { AreSorted list.old.items }
    requires within { i ≤ length list.old.items }
    requires gap { Err i ≡ place name.now list.old.items }
    ensures ok { OnOk result (Changes name.now [] branch (map pair_of list.old.items) (map pair_of list.new.items)) }
    ensures err { OnErr result (map pair_of list.new.items ≡ map pair_of list.old.items) }
{
    match branch {
        None => Ok(()),
        Some(node) => {
            let Ok(name) = name.copy() else {
                return Err(AllocError);
            };
            let name = Arc::new(alloc, name)?;
            list.insert(i, Child { name, node })?;
            Ok(())
        }
    }
}

impl Node {
    // Replaces the node at the path `names` below this node by `branch`; removes it if `branch` is `None`. Fails if a directory on the way is missing, if
    // this node itself would be removed, or if memory is refused; then this node is unchanged.
    #[cycle(set)]
    pub(crate) fn set(
        &mut self,
        alloc: Global,
        names: &[Name],
        branch: Option<Node>,
    ) -> Result<(), AllocError>
        ensures ok { OnOk result ((q : List (List ℕ)) → finite.get self.new q ≡ set_look names.now branch (finite.get self.old) q) }
        ensures err { OnErr result (self.new ≡ self.old) }
    {
        match names {
            [] => match branch {
                None => Err(AllocError),
                Some(node) => {
                    *self = node;
                    Ok(())
                }
            },
            [name, rest @ ..] => match &mut self.kind {
                Kind::File(..) => Err(AllocError),
                Kind::Dir(_, kids) => set_below(kids, alloc, name, rest, branch),
            },
        }
    }
}
