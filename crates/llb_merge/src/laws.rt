//! Laws of laying, for all trees. Laying is not associative: if the middle one of three trees has a file where the other
//! two have a directory, then what the lowest tree has below that path is lost if the lower two are laid first, and kept
//! if the upper two are laid first.

ghost use Rattle.std.specs.Prelude.{◌≡◌, List, [], ℕ};
ghost use Rattle.std.specs.FinMap as finite;
ghost use Rattle.llb_tree.specs.ModeAndOwner.{new_dir_meta};
ghost use Rattle.llb_tree.specs.Tree.{IsTree, empty_tree, Dir};
ghost use Rattle.llb_merge.specs.Laying.{lay, lay_at};

use llb_tree::Tree;

/// Proves what the result of laying one tree over another has at each path: what the upper tree has there; or, if the upper tree has nothing there, what the
/// lower tree has, unless a file of the upper tree is above the path. Also proves that the result is a tree.
pub fn at_each_path(lower: &Tree, upper: &Tree)
    ensures paths { (q : List (List ℕ)) → finite.get (lay lower.now upper.now) q ≡ lay_at (finite.get lower.now) (finite.get upper.now) q }
    ensures tree { IsTree (lay lower.now upper.now) }
{
    lower.is_tree();
    upper.is_tree();
}

/// Proves that laying a tree over the empty tree returns that tree.
pub fn over_the_empty_tree(tree: &Tree)
    ensures { lay empty_tree tree.now ≡ tree.now }
{
    tree.is_tree();
}

/// Proves that laying the empty tree over a tree returns that tree, except that its root gets the mode and the owner of the root of the empty tree.
pub fn under_the_empty_tree(tree: &Tree)
    ensures { lay tree.now empty_tree ≡ finite.insert tree.now [] (Dir new_dir_meta) }
{
    let _ = tree;
}

/// Proves that laying a tree over itself returns that tree.
pub fn over_itself(tree: &Tree)
    ensures { lay tree.now tree.now ≡ tree.now }
{
    let _ = tree;
}
