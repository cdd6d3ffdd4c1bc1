//! A walk through the entries of a tree in path order. The walk keeps the current path and, for each directory above the current entry, the children that
//! it has not visited yet. So going to the next entry copies one name, and `skip` does not visit the entries that it passes.

ghost use Rattle.std.specs.Prelude.{◌≡◌, ◌<◌, [], ◌∷◌, ◌++◌, length, drop, Some, Ok, IfOk, IfErr, OnOk, OnErr};
ghost use Rattle.std.specs.Option.{option_map};
ghost use Rattle.std.specs.List.{slice_get};
ghost use Rattle.std.specs.FinMap as finite;
ghost use Rattle.llb_tree.specs.Tree.{Gives};
ghost use Rattle.llb_tree.specs.Nodes.{left_in, name_of, pair_seen};
ghost use Rattle.llb_tree.specs.Walks.{past, behind, levels_of, left, AreBehind, AreShort, GoesOn};
ghost use Rattle.llb_tree.specs.declared.fault.TreeFault.TheVariants.{Memory};

use crate::children::Children;
use crate::fault::TreeFault;
use crate::node::{Child, Entry, Node};
use crate::path::Path;
use crate::tree::Tree;
use std::marker::Model;

/// A walk through the entries of a tree in path order. Contracts see the list of the current entry and the entries after it.
pub struct Walk<'a> {
    present: Option<&'a Node>,
    path: Path,
    levels: Vec<Children<'a>>,
}

impl<'a> Drop for Walk<'a> {
    fn drop(self) {
        let Walk {
            present: _,
            path: _,
            levels: _,
        } = self;
    }
}

impl<'a> Model for Walk<'a> {
    ghost use Rattle.std.specs.Prelude.{ℕ, List};
    ghost use Rattle.llb_tree.specs.Tree as base;

    ghost Value = { List (List (List ℕ) × base.Entry) };

    ghost use Rattle.llb_tree.specs.Walks.{left, GoesOn};

    ghost view = { λ w. left w.present w.path w.levels.items };

    ghost invariant = { λ w. GoesOn w.present w.path w.levels.items };
}

// Goes down to a child, and appends the children after that child to `levels`, to be visited later.
fn enter<'a>(
    path: &mut Path,
    levels: &mut Vec<Children<'a>>,
    kid: &'a Child,
    rest: Children<'a>,
) -> Result<&'a Node, TreeFault>
    requires { length path.old < 128 }
    ensures node { IfOk result (λ n. n.now ≡ kid.now.node) }
    ensures path { OnOk result (path.new ≡ path.old ++ name_of kid.now ∷ []) }
    ensures levels { OnOk result (levels_of levels.new.items ≡ levels_of levels.old.items ++ left_in rest.entry ∷ []) }
    ensures err { IfErr result (λ e. e ≡ Memory) }
{
    let name = kid.name.copy()?;
    path.push(name)?;
    levels.push(rest)?;
    Ok(&kid.node)
}

// Goes up to the nearest directory that has children left to visit, and then down to the first of these; returns `None` if there is no such directory.
fn climb<'a>(path: &mut Path, levels: &mut Vec<Children<'a>>) -> Result<Option<&'a Node>, TreeFault>
    requires behind { AreBehind path.old (levels_of levels.old.items) }
    requires short { AreShort (behind path.old (levels_of levels.old.items)) }
    ensures left { IfOk result (λ n. left n path.new levels.new.items ≡ behind path.old (levels_of levels.old.items)) }
    ensures on { IfOk result (λ n. GoesOn n path.new levels.new.items) }
    ensures err { IfErr result (λ e. e ≡ Memory) }
{
    let _names = path.names();
    while let Some(level) = levels.pop() {
        path.pop();
        if let Some((kid, rest)) = level.split_first() {
            return Ok(Some(enter(path, levels, kid, rest)?));
        }
    }
    Ok(None)
}

// Goes down to the first child of the node; if the node has no child, goes up as `climb` does.
fn descend<'a>(
    path: &mut Path,
    levels: &mut Vec<Children<'a>>,
    node: &'a Node,
) -> Result<Option<&'a Node>, TreeFault>
    requires { GoesOn (Some node) path.old levels.old.items }
    ensures left { IfOk result (λ n. left n path.new levels.new.items ≡ drop 1 (left (Some node.entry) path.old levels.old.items)) }
    ensures on { IfOk result (λ n. GoesOn n path.new levels.new.items) }
    ensures err { IfErr result (λ e. e ≡ Memory) }
{
    let _entry = node.entry();
    match node.children().split_first() {
        Some((kid, rest)) => {
            let _child = kid.node.entry();
            Ok(Some(enter(path, levels, kid, rest)?))
        }
        None => climb(path, levels),
    }
}

impl Tree {
    /// Starts a walk through the entries, at the root. Does not allocate.
    pub fn walk(&self) -> Walk<'_>
        ensures { result ≡ finite.entries self.now }
    {
        Walk {
            present: Some(&self.root),
            path: Path::root(self.alloc),
            levels: Vec::new(self.alloc),
        }
    }
}

impl<'a> Walk<'a> {
    /// Returns the current entry and its path; `None` at the end. Does not allocate.
    pub fn at(&self) -> Option<(&Path, Entry<'_>)>
        ensures { option_map pair_seen result ≡ slice_get self.now 0 }
    {
        let node = self.present?;
        Some((&self.path, node.entry()))
    }

    /// Goes to the next entry; does nothing at the end. Fails with 27 `Memory` alone; the walk is then at the end.
    pub fn advance(&mut self) -> Result<(), TreeFault>
        ensures gives { Gives (λ _. self.new) result (Ok (drop 1 self.old)) }
        ensures err { OnErr result (self.new ≡ []) }
    {
        let Some(node) = self.present else {
            return Ok(());
        };
        self.present = None;
        let next = descend(&mut self.path, &mut self.levels, node)?;
        self.present = next;
        Ok(())
    }

    /// Goes past the current entry and all entries below it, without visiting these; does nothing at the end. Fails
    /// with 27 `Memory` alone; the walk is then at the end.
    pub fn skip(&mut self) -> Result<(), TreeFault>
        ensures gives { Gives (λ _. self.new) result (Ok (past self.old)) }
        ensures err { OnErr result (self.new ≡ []) }
    {
        let Some(node) = self.present else {
            return Ok(());
        };
        let _entry = node.entry();
        self.present = None;
        let next = climb(&mut self.path, &mut self.levels)?;
        self.present = next;
        Ok(())
    }
}
