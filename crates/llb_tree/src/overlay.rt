//! Lays one tree over another. The call goes down both trees at once and visits only paths that both trees have; nodes at other paths are shared. At each level
//! the upper children are put among the lower ones, each into the piece that its name belongs to. But if the upper children have every name of the lower ones,
//! and the settings leave every upper entry unchanged, the upper pieces replace the lower ones, and only the directories that both trees have are laid, one
//! level deeper. After a refusal the lower tree is unchanged, since the new children are put into copies of the lower pieces.

ghost use Rattle.std.specs.Prelude.{◌≡◌, ℕ, List, option_map, IfOk, IfErr, OnOk, OnErr, map, true, unwrap_or};
ghost use Rattle.std.specs.Arc.{arc_value};
ghost use Rattle.std.specs.FinMap as finite;
ghost use Rattle.llb_tree.specs.Tree.{is_memory};
ghost use Rattle.llb_tree.specs.Nodes.{child, kids_in, left_in, name_of, pair_of};
ghost use Rattle.llb_tree.specs.ChildPieces.{ArePieced, pairs_of};
ghost use Rattle.llb_tree.specs.Overlay.{over_at};
ghost use Rattle.llb_tree.specs.Laying.{Lays, IsLaid, AreLaid, PiecesLaid, IsOver};
ghost use Rattle.llb_tree.specs.Laying.{TakesWhole, StandWhole, Covers, those, those_pieces, dress, dress_pair};

use crate::child_insertion::put_all;
use crate::child_pieces::{child_near, child_of, in_pieces};
use crate::children::Children;
use crate::covering_children::covers;
use crate::fault::TreeFault;
use crate::node::{Child, Kind, Node, Piece};
use crate::overlay_settings::OverlaySettings;
use crate::overlay_writing::{with_node, with_rows};
use crate::tree::Tree;
use std::alloc::{AllocError, Global};
use std::sync::Arc;

// Returns the node, and all that is below it, with the mode and the owner that `settings` sets. Contents are shared; so is
// the whole node if `settings` sets neither a mode nor an owner.
#[cycle(dress)]
fn dressed(node: &Node, alloc: Global, settings: &OverlaySettings) -> Result<Node, AllocError>
    ensures { IfOk result (λ n. n ≡ dress settings.now node.now) }
{
    if settings.gives_nothing() {
        return node.copy();
    }
    let kind = match &node.kind {
        Kind::File(meta, content) => Kind::File(
            settings.laid_meta(*meta),
            Arc::try_clone(content)?,
        ),
        Kind::Dir(meta, kids) => {
            let list = all_dressed(Children::of(kids.as_slice()), alloc, settings)?;
            Kind::Dir(settings.laid_meta(*meta), in_pieces(alloc, list)?)
        }
    };
    Ok(Node { kind })
}

#[cycle(dress)]
fn all_dressed(
    kids: Children<'_>,
    alloc: Global,
    settings: &OverlaySettings,
) -> Result<Vec<Child>, AllocError>
    ensures { IfOk result (λ v. map pair_of v.items ≡ map (dress_pair settings.now) (map pair_of (left_in kids.entry))) }
{
    let mut list = Vec::new(alloc);
    let mut left = kids;
    while let Some((kid, rest)) = left.split_first() {
        let name = Arc::try_clone(&kid.name)?;
        let node = dressed(&kid.node, alloc, settings)?;
        list.push(Child { name, node })?;
        left = rest;
    }
    Ok(list)
}

// Lays the upper node over the lower one and replaces the lower node by the result; after a refusal the lower node is
// unchanged. Returns whether the result is known to be the upper node, unchanged.
#[cycle(lay)]
fn lay_node(
    lower: &mut Node,
    alloc: Global,
    settings: &OverlaySettings,
    upper: &Node,
) -> Result<bool, AllocError>
    ensures ok { OnOk result ((q : List (List ℕ)) → finite.get lower.new q ≡ over_at settings.now (finite.get lower.old) (finite.get upper.now) q) }
    ensures whole { IfOk result (λ whole. whole ≡ true → lower.new ≡ upper.now) }
    ensures err { OnErr result (lower.new ≡ lower.old) }
{
    match (&mut lower.kind, &upper.kind) {
        (Kind::Dir(meta, kids), Kind::Dir(laid, list)) => {
            let whole = lay_children(kids, alloc, settings, list)?;
            *meta = settings.met(*meta, *laid);
            Ok(whole)
        }
        _ => {
            *lower = dressed(upper, alloc, settings)?;
            Ok(settings.gives_nothing())
        }
    }
}

// Lays upper children over lower ones. If the upper children have every name of the lower ones, and the settings leave every upper entry unchanged, the lists
// of the lower children are not copied. If the call returns true, the new children are the upper ones, unchanged.
#[cycle(lay)]
fn lay_children(
    kids: &mut Arc<Vec<Piece>>,
    alloc: Global,
    wanted: &OverlaySettings,
    upper: &Arc<Vec<Piece>>,
) -> Result<bool, AllocError>
    requires lower { ArePieced (arc_value kids.old).items }
    requires upper { ArePieced (arc_value upper.now).items }
    ensures ok { OnOk result (Lays wanted.now (kids_in (arc_value upper.now).items) (kids_in (arc_value kids.old).items) (kids_in (arc_value kids.new).items)) }
    ensures pieced { ArePieced (arc_value kids.new).items }
    ensures whole { IfOk result (λ whole. whole ≡ true → StandWhole wanted.now (kids_in (arc_value upper.now).items) (kids_in (arc_value kids.new).items)) }
    ensures err { OnErr result (pairs_of (arc_value kids.new).items ≡ pairs_of (arc_value kids.old).items) }
{
    let above = upper.as_slice();
    if wanted.takes_whole() && covers(above, kids.as_slice()) {
        return lay_all(kids, alloc, wanted, upper);
    }
    lay_each(kids, alloc, wanted, above)?;
    Ok(false)
}

// Lays upper children over lower ones. The upper ones must have every name of the lower ones, and the settings must leave every upper entry unchanged. Returns
// whether the result is the upper children, unchanged.
#[cycle(lay)]
fn lay_all(
    kids: &mut Arc<Vec<Piece>>,
    alloc: Global,
    wanted: &OverlaySettings,
    upper: &Arc<Vec<Piece>>,
) -> Result<bool, AllocError>
    requires lower { ArePieced (arc_value kids.old).items }
    requires upper { ArePieced (arc_value upper.now).items }
    requires settings { TakesWhole wanted.now }
    requires covers { Covers (kids_in (arc_value upper.now).items) (kids_in (arc_value kids.old).items) }
    ensures ok { OnOk result (Lays wanted.now (kids_in (arc_value upper.now).items) (kids_in (arc_value kids.old).items) (kids_in (arc_value kids.new).items)) }
    ensures pieced { ArePieced (arc_value kids.new).items }
    ensures whole { IfOk result (λ whole. whole ≡ true → StandWhole wanted.now (kids_in (arc_value upper.now).items) (kids_in (arc_value kids.new).items)) }
    ensures err { OnErr result (pairs_of (arc_value kids.new).items ≡ pairs_of (arc_value kids.old).items) }
{
    match laid_all(kids.as_slice(), alloc, wanted, upper.as_slice())? {
        None => {
            *kids = Arc::try_clone(upper)?;
            Ok(true)
        }
        Some(list) => {
            *kids = Arc::new(alloc, list)?;
            Ok(false)
        }
    }
}

// Lays upper pieces over lower ones; a piece has some of the children of a directory. Returns the upper pieces with a changed copy in place of each piece that
// changes; `None` if no piece changes.
#[cycle(lay)]
fn laid_all(
    kids: &[Piece],
    alloc: Global,
    settings: &OverlaySettings,
    upper: &[Piece],
) -> Result<Option<Vec<Piece>>, AllocError>
    requires lower { ArePieced kids.now }
    requires settings { TakesWhole settings.now }
    ensures { IfOk result (λ made. PiecesLaid settings.now (kids_in kids.now) upper.now (those_pieces made upper.now)) }
{
    let mut made = None;
    for (i, piece) in upper.iter().enumerate() {
        if let Some(rows) = laid_rows(kids, alloc, settings, i, piece.rows.as_slice())? {
            made = Some(with_rows(made, alloc, upper, i, rows)?);
        }
    }
    Ok(made)
}

// Lays the upper children of one piece over the lower children that have the same names; returns `None` if no upper child changes. Looks for each name first in
// the lower piece `at`, at the index that the name has in `upper`.
#[cycle(lay)]
fn laid_rows(
    kids: &[Piece],
    alloc: Global,
    settings: &OverlaySettings,
    at: usize,
    upper: &[Child],
) -> Result<Option<Vec<Child>>, AllocError>
    requires lower { ArePieced kids.now }
    requires settings { TakesWhole settings.now }
    ensures { IfOk result (λ made. AreLaid settings.now (kids_in kids.now) upper.now (those made upper.now)) }
{
    let mut made = None;
    for (i, kid) in upper.iter().enumerate() {
        if let Kind::Dir(..) = &kid.node.kind {
            let lower = child_near(kids, at, i, &kid.name);
            if let Some(node) = laid_over(lower, alloc, settings, kid)? {
                made = Some(with_node(made, alloc, upper, i, node)?);
            }
        }
    }
    Ok(made)
}

// Lays an upper child over the lower child of the same name; returns `None` if the result is the upper child, unchanged.
#[cycle(lay)]
fn laid_over(
    lower: Option<&Child>,
    alloc: Global,
    settings: &OverlaySettings,
    upper: &Child,
) -> Result<Option<Node>, AllocError>
    requires settings { TakesWhole settings.now }
    ensures { (old : List Child) → option_map (λ k. k.now.node) lower.entry ≡ child (name_of upper.now) old
        → IfOk result (λ made. IsOver settings.now old upper.now (unwrap_or made upper.now.node)) }
{
    let Some(lower) = lower else {
        return Ok(None);
    };
    let mut node = lower.node.copy()?;
    if lay_node(&mut node, alloc, settings, &upper.node)? {
        return Ok(None);
    }
    Ok(Some(node))
}

// Lays upper children over lower ones, one by one. All results are made before the first of them is put among the lower children.
#[cycle(lay)]
fn lay_each(
    kids: &mut Arc<Vec<Piece>>,
    alloc: Global,
    settings: &OverlaySettings,
    upper: &[Piece],
) -> Result<(), AllocError>
    requires lower { ArePieced (arc_value kids.old).items }
    requires upper { ArePieced upper.now }
    ensures ok { OnOk result (Lays settings.now (kids_in upper.now) (kids_in (arc_value kids.old).items) (kids_in (arc_value kids.new).items)) }
    ensures pieced { ArePieced (arc_value kids.new).items }
    ensures err { OnErr result (pairs_of (arc_value kids.new).items ≡ pairs_of (arc_value kids.old).items) }
{
    let ready = laid_children(kids.as_slice(), alloc, settings, Children::of(upper))?;
    put_all(kids, alloc, ready)
}

#[cycle(lay)]
fn laid_children(
    kids: &[Piece],
    alloc: Global,
    settings: &OverlaySettings,
    upper: Children<'_>,
) -> Result<Vec<Child>, AllocError>
    requires { ArePieced kids.now }
    ensures { IfOk result (λ v. AreLaid settings.now (kids_in kids.now) (left_in upper.entry) v.items) }
{
    let mut ready = Vec::new(alloc);
    let mut left = upper;
    while let Some((kid, rest)) = left.split_first() {
        ready.push(laid_child(kids, alloc, settings, kid)?)?;
        left = rest;
    }
    Ok(ready)
}

// Lays an upper child over a copy of the lower child of the same name; if there is no such lower child, returns the upper child with the mode and
// the owner that the settings set.
#[cycle(lay)]
fn laid_child(
    kids: &[Piece],
    alloc: Global,
    settings: &OverlaySettings,
    upper: &Child,
) -> Result<Child, AllocError>
    requires { ArePieced kids.now }
    ensures { IfOk result (λ k. IsLaid settings.now (kids_in kids.now) upper.now k) }
{
    let name = Arc::try_clone(&upper.name)?;
    match child_of(kids, &upper.name) {
        Some(lower) => {
            let mut node = lower.node.copy()?;
            lay_node(&mut node, alloc, settings, &upper.node)?;
            Ok(Child { name, node })
        }
        None => {
            let node = dressed(&upper.node, alloc, settings)?;
            Ok(Child { name, node })
        }
    }
}

impl Tree {
    /// Lays the tree `upper` over this one, and returns the result. At a path the result has what `upper` has there, with the mode and the owner that
    /// `settings` sets. If `upper` has nothing there, the result has what this tree has there, unless a file of `upper` is above the path. If `settings`
    /// says so, a directory that both trees have keeps this tree's mode and owner. Fails with 27 `Memory` alone. The call visits only paths that both trees
    /// have; nodes at other paths are shared, not copied. But if `settings` sets a mode or an owner, all entries of `upper` get new nodes, which share the
    /// contents.
    pub fn overlaid(self, settings: &OverlaySettings, upper: &Tree) -> Result<Tree, TreeFault>
        ensures paths { IfOk result (λ t. (q : List (List ℕ)) → finite.get t q ≡ over_at settings.now (finite.get self) (finite.get upper.now) q) }
        ensures memory { IfErr result (λ e. is_memory e ≡ true) }
    {
        let mut laid = self;
        laid.overlay(settings, upper)?;
        Ok(laid)
    }

    /// Lays the tree `upper` over this one, as `overlaid` does, and replaces this tree by the result. Fails with 27 `Memory` alone;
    /// then this tree is unchanged. The call replaces the root's list of children. Below the root, if both trees have a
    /// directory at a path, the call changes a copy of this tree's directory; other nodes are shared.
    pub fn overlay(&mut self, settings: &OverlaySettings, upper: &Tree) -> Result<(), TreeFault>
        ensures paths { OnOk result ((q : List (List ℕ)) → finite.get self.new q ≡ over_at settings.now (finite.get self.old) (finite.get upper.now) q) }
        ensures memory { IfErr result (λ e. is_memory e ≡ true) }
        ensures err { OnErr result (self.new ≡ self.old) }
    {
        settings.are_settings();
        let depth = self.depth.max(upper.depth);
        lay_node(&mut self.root, self.alloc, settings, &upper.root)?;
        self.depth = depth;
        Ok(())
    }
}
