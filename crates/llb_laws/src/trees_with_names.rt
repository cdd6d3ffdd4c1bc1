//! Calls that prove of the code's local trees and caches what the clauses on tokens of `contents` ask: that the paths in them consist of names. A tree of the
//! code has no other paths; the calls look at each tree once.

ghost use Rattle.std.specs.Prelude.{◌≡◌, Some, slice_get};
ghost use Rattle.std.specs.List.{All};
ghost use Rattle.std.specs.Map.{keys_of};
ghost use Rattle.llb_cache.specs.Caches.{trees_of};
ghost use Rattle.llb_cache.specs.declared.key.Key.{Key};
ghost use Rattle.llb_tree.specs.Tree.{TreeMap};
ghost use Rattle.llb_model.specs.TwoCacheModels.{store_of};
ghost use Rattle.llb_laws.specs.ContentLaws.{HasNames};
ghost use Rattle.llb_laws.specs.TokenRuns.{SourceHasNames, LocalsHaveNames, CachesHaveNames};

use llb_cache::{Caches, Key};
use llb_loader::{Graph, Locals, Vertex};
use llb_tree::Tree;

/// Proves that each path at which a tree has an entry consists of names.
pub fn tree_has_names(tree: &Tree)
    ensures { HasNames tree.now }
{
    tree.is_tree();
}

/// Proves that the trees of a graph's local sources, as far as they are given, have only names in their paths.
pub fn locals_have_names(graph: &Graph, locals: &Locals)
    ensures { LocalsHaveNames graph.now locals.now }
{
    for vertex in graph.vertices() {
        source_has_names(vertex, locals);
    }
}

// Proves that the tree of a local source, if it is given, has only names in its paths.
fn source_has_names(vertex: &Vertex, locals: &Locals)
    ensures { SourceHasNames locals.now vertex.now }
{
    if let Some(name) = vertex.local_name() {
        if let Some(tree) = locals.get(name) {
            tree_has_names(tree);
        }
    }
}

/// Proves that the trees of all cache instances have only names in their paths.
pub fn caches_have_names(caches: &Caches)
    ensures { CachesHaveNames (store_of caches.now.rows) }
{
    for k in 0..caches.keys() {
        row_has_names(caches, k);
    }
}

// Proves that the trees of the instances of key `k`, if there is one, have only names in their paths.
fn row_has_names(caches: &Caches, k: usize)
    ensures { (key : Key) → slice_get (keys_of caches.now.rows) k ≡ Some key → All HasNames (trees_of caches.now.rows key) }
{
    if let Some(key) = caches.key(k) {
        key_has_names(caches, key);
    }
}

// Proves that the trees of a key's instances have only names in their paths.
fn key_has_names(caches: &Caches, key: &Key)
    ensures { All HasNames (trees_of caches.now.rows key.now) }
{
    for number in 0..caches.instances(key) {
        instance_has_names(caches, key, number);
    }
}

// Proves that the tree of an instance, if there is one, has only names in its paths.
fn instance_has_names(caches: &Caches, key: &Key, number: u32)
    ensures { (tree : TreeMap) → slice_get (trees_of caches.now.rows key.now) number ≡ Some tree → HasNames tree }
{
    if let Some(tree) = caches.instance(key, number) {
        tree_has_names(tree);
    }
}
