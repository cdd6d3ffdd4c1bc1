//! The trees that a workspace works on, in a fixed order, and what each tree is there: a local tree, an input, a result or a mount's tree. Nothing here
//! allocates.

ghost use Rattle.std.specs.Prelude.{◌≡◌, ◌++◌, ◌∷◌, [], ℕ, List, Option, length, map, option_map, slice_get};
ghost use Rattle.llb_tree.specs.Tree.{TreeMap};
ghost use Rattle.llb_model.specs.Program.{filled};
ghost use Rattle.llb_execution.specs.WorkspaceTrees.{trees_with, looked, tree_or, last_tree, next_place, shown_tree, role_in, roles_of, mounts_of};
ghost use Rattle.llb_execution.specs.WorkspaceTrees.{Local, Laid, input_role, mount_role, results_from};

use crate::workspace::{WorkState, Workspace};
use llb_mount::View as Mounts;
use llb_tree::{Path, Tree};

/// An item of the list of trees that a workspace works on.
pub enum Look<'a> {
    /// A tree that is in the workspace.
    Here(&'a Tree),
    /// The tree of a cache instance; the caller has this tree. The number is the index of the instance's mount among the cache mounts of the vertex.
    Cached(usize),
}

/// What a tree of a workspace is: a local tree, an input, a result or a mount's tree.
pub enum Part<'a> {
    /// The local tree of a source.
    Local,
    /// The tree of an input.
    Input,
    /// The result of the action with this number.
    ResultOf(usize),
    /// The result so far of a merge.
    Laid,
    /// The tree that the mount at this path shows.
    MountAt(&'a Path),
}

impl Workspace {
    /// Returns item `i` of the list of trees that the workspace works on; `None` past the end. A source has its local tree; a file
    /// op its inputs and then its results so far; a merge its inputs and then its result so far; an exec an item for each mount:
    /// the mount's tree or, if the mount shows a cache, the mount's index among the cache mounts. `held` is how many cache
    /// instances the worker holds. Does not allocate.
    pub fn look(&self, i: u32, held: usize) -> Option<Look<'_>>
        ensures { (trees : List TreeMap) → length trees ≡ held → looked trees result ≡ slice_get (trees_with self.now trees) i }
    {
        match &self.own {
            WorkState::Local(tree) => here(before_last(&[], tree, i)),
            WorkState::Files(inputs, results) => here(among(inputs, results, i)),
            WorkState::Layers(inputs, laid) => here(before_last(inputs, laid, i)),
            WorkState::Mounted(mounts, numbers, _) => look_in(mounts, numbers, i, held),
        }
    }

    /// Returns the mounts of an exec; `None` for a workspace of another kind. A mount that shows a cache has the empty tree here. Does not allocate.
    pub fn mounts(&self) -> Option<&Mounts>
        ensures { option_map (λ v. v.now) result ≡ mounts_of self.now }
    {
        match &self.own {
            WorkState::Mounted(mounts, _, _) => Some(mounts),
            _ => None,
        }
    }

    /// Returns how many trees the workspace works on: the length of the list that `look` reads. Does not allocate.
    pub fn parts(&self) -> usize
        ensures { result ≡ length (roles_of self.now) }
    {
        match &self.own {
            WorkState::Local(_) => 1,
            WorkState::Files(inputs, results) => inputs.len() + results.len(),
            WorkState::Layers(inputs, _) => inputs.len() + 1,
            WorkState::Mounted(mounts, _, _) => mounts.mounts().len(),
        }
    }

    /// Returns what tree `i` is, as a `Part`: a local tree, an input, a result or a mount's tree. Returns `None` past the last tree. Does not allocate.
    pub fn part(&self, i: usize) -> Option<Part<'_>>
        ensures { option_map role_in result ≡ slice_get (roles_of self.now) i }
    {
        match &self.own {
            WorkState::Local(_) => local_part(i),
            WorkState::Files(inputs, results) => file_part(inputs, results, i),
            WorkState::Layers(inputs, _) => merge_part(inputs, i),
            WorkState::Mounted(mounts, _, _) => mount_part(mounts, i),
        }
    }
}

// Returns what tree `i` of a source's workspace is, as a `Part`: tree 0 is the local tree; `None` for any other number.
fn local_part<'a>(i: usize) -> Option<Part<'a>>
    ensures { option_map role_in result ≡ slice_get (Local ∷ []) i }
{
    if i == 0 {
        return Some(Part::Local);
    }
    None
}

// Returns what tree `i` of a file op's workspace is, as a `Part`: first come the trees of the inputs, then the results so far; `None` past the end.
fn file_part<'a>(inputs: &[Tree], results: &[Tree], i: usize) -> Option<Part<'a>>
    ensures { option_map role_in result ≡ slice_get (map input_role inputs.now ++ results_from 0 results.now) i }
{
    if i < inputs.len() {
        return Some(Part::Input);
    }
    let a = i - inputs.len();
    if a < results.len() {
        return Some(Part::ResultOf(a));
    }
    None
}

// Returns what tree `i` of a merge's workspace is, as a `Part`: first come the trees of the inputs, then the result so far; `None` past the end.
fn merge_part<'a>(inputs: &[Tree], i: usize) -> Option<Part<'a>>
    ensures { option_map role_in result ≡ slice_get (map input_role inputs.now ++ Laid ∷ []) i }
{
    if i < inputs.len() {
        return Some(Part::Input);
    }
    if i == inputs.len() {
        return Some(Part::Laid);
    }
    None
}

// Returns what tree `i` of an exec's workspace is, as a `Part`: the tree of mount `i`, with this mount's dest; `None` past the last mount.
fn mount_part(mounts: &Mounts, i: usize) -> Option<Part<'_>>
    ensures { option_map role_in result ≡ slice_get (map mount_role mounts.now) i }
{
    match mounts.mounts().get(i) {
        Some(shown) => Some(Part::MountAt(&shown.dest)),
        None => None,
    }
}

// Returns a tree of the workspace as a `Look`.
fn here(tree: Option<&Tree>) -> Option<Look<'_>>
    ensures { (trees : List TreeMap) → looked trees result ≡ option_map (λ t. t.now) tree.entry }
{
    match tree {
        Some(tree) => Some(Look::Here(tree)),
        None => None,
    }
}

// Returns tree `i` of the list that joins `first` and `second`.
fn among<'a>(first: &'a [Tree], second: &'a [Tree], i: u32) -> Option<&'a Tree>
    ensures { option_map (λ t. t.now) result ≡ slice_get (first.now ++ second.now) i }
{
    let at = i as usize;
    if at < first.len() {
        return first.get(at);
    }
    second.get(at - first.len())
}

// Returns tree `i` of the list that has the trees of `first`, and then `last`.
fn before_last<'a>(first: &'a [Tree], last: &'a Tree, i: u32) -> Option<&'a Tree>
    ensures { option_map (λ t. t.now) result ≡ slice_get (first.now ++ last.now ∷ []) i }
{
    let at = i as usize;
    if at < first.len() {
        return first.get(at);
    }
    if at == first.len() {
        return Some(last);
    }
    None
}

// Returns, as a `Look`, the tree of mount `i` or, if the mount shows a cache, the mount's index among the cache mounts.
fn look_in<'a>(mounts: &'a Mounts, numbers: &[u32], i: u32, held: usize) -> Option<Look<'a>>
    ensures { (trees : List TreeMap) → length trees ≡ held
        → looked trees result ≡ slice_get (map shown_tree (filled mounts.now numbers.now trees)) i }
{
    let Some(tree) = mount_tree(mounts, i) else {
        return None;
    };
    match last_place(numbers, i, held) {
        Some(k) => Some(Look::Cached(k)),
        None => Some(Look::Here(tree)),
    }
}

// Returns the tree that mount `i` has in the workspace; this tree is empty if the mount shows a cache.
fn mount_tree(mounts: &Mounts, i: u32) -> Option<&Tree>
    ensures { option_map (λ t. t.now) result ≡ slice_get (map shown_tree mounts.now) i }
{
    match mounts.mounts().get(i as usize) {
        Some(shown) => Some(&shown.tree),
        None => None,
    }
}

// Returns the last index below `held` at which `numbers` has the number `i`.
fn last_place(numbers: &[u32], i: u32, held: usize) -> Option<usize>
    ensures { (trees : List TreeMap) (own : Option TreeMap) → length trees ≡ held → tree_or own trees result ≡ last_tree i numbers.now trees own }
{
    let mut place = None;
    let count = numbers.len().min(held);
    for k in 0..count {
        place = next_place(i, numbers[k], k, place);
    }
    place
}

// Returns the last index so far at which a list of numbers has `i`: `k` if the number at index `k` is `i`, else the earlier index `place`.
fn next_place(i: u32, number: u32, k: usize, place: Option<usize>) -> Option<usize>
    ensures { result ≡ next_place i number k place }
{
    if number == i { Some(k) } else { place }
}
