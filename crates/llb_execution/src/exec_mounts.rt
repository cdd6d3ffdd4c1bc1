//! Makes what the commands of an exec share: the setting (directory and variables), and the mounts as they are before the first command.
//! Nothing here runs a command.

ghost use Rattle.std.specs.Prelude.{◌≡◌, IfOk, map, option_map, unwrap_or};
ghost use Rattle.llb_tree.specs.Tree.{empty_tree};
ghost use Rattle.llb_mount.specs.View.{IsView};
ghost use Rattle.llb_model.specs.Program.{has_cache, path_in, setting_of, selector_of, tree_shown, shown_of, base_in};

use llb_applet::Setting;
use llb_loader::{MountType, Vertex, mounts_of};
use llb_mount::{Shown, View};
use llb_ops::{Meta, Mount};
use llb_tree::{Path, Tree, TreeFault};
use llb_wire::{Many, Memory, Text};
use std::alloc::Global;

/// Returns the setting of an exec's commands: the directory in which the commands run (the root if there is no `meta`), and their variables.
pub(crate) fn setting_with(alloc: Global, meta: &Option<Meta>) -> Result<Setting, Memory>
    ensures { IfOk result (λ s. s ≡ setting_of meta.now) }
{
    match meta {
        Some(meta) => {
            let cwd = path_in(alloc, &meta.cwd)?;
            let env = copies(alloc, meta.env.as_slice())?;
            Ok(Setting {
                cwd,
                env: Many::new(env),
            })
        }
        None => Ok(Setting {
            cwd: Path::root(alloc),
            env: Many::new(Vec::new(alloc)),
        }),
    }
}

// Reads a text as a path; returns the root if the text is no path.
fn path_in(alloc: Global, text: &Text) -> Result<Path, Memory>
    ensures { IfOk result (λ p. p ≡ path_in text.now) }
{
    match Path::read(alloc, text.as_str()) {
        Ok(path) => Ok(path),
        Err(TreeFault::Memory) => Err(Memory),
        // Unreachable in a loaded graph: `load` refuses texts that are no paths.
        Err(_) => Ok(Path::root(alloc)),
    }
}

fn copies(alloc: Global, texts: &[Text]) -> Result<Vec<Text>, Memory>
    ensures { IfOk result (λ v. v.items ≡ texts.now) }
{
    let mut copied = Vec::new(alloc);
    for text in texts {
        copied.push(text.copy()?)?;
    }
    Ok(copied)
}

/// Returns the view of an exec's mounts before the first command, from the trees of the inputs.
pub(crate) fn view_of(alloc: Global, inputs: &[Tree], mounts: &[Mount]) -> Result<View, Memory>
    requires { IsView (map (shown_of inputs.now) mounts.now) }
    ensures { IfOk result (λ v. v ≡ map (shown_of inputs.now) mounts.now) }
{
    let shown = all_shown(alloc, inputs, mounts)?;
    Ok(View::make(Many::new(shown))?)
}

// Returns the mounts of an exec before the first command, from the trees of the inputs.
fn all_shown(alloc: Global, inputs: &[Tree], mounts: &[Mount]) -> Result<Vec<Shown>, Memory>
    ensures { IfOk result (λ v. v.items ≡ map (shown_of inputs.now) mounts.now) }
{
    let mut shown = Vec::new(alloc);
    for mount in mounts {
        shown.push(shown_of(alloc, inputs, mount)?)?;
    }
    Ok(shown)
}

// Returns a mount as it is before the first command: with its dest and selector as paths, and with its tree (an input's tree, or the empty tree).
fn shown_of(alloc: Global, inputs: &[Tree], mount: &Mount) -> Result<Shown, Memory>
    ensures { IfOk result (λ m. m ≡ shown_of inputs.now mount.now) }
{
    let dest = path_in(alloc, &mount.dest)?;
    let selector = selector_of(alloc, mount)?;
    let tree = tree_shown(alloc, inputs, mount)?;
    Ok(Shown {
        dest,
        selector,
        readonly: mount.readonly,
        tree,
    })
}

// Returns the path, in the mount's tree, of what the mount shows at its dest; the root for a tmpfs mount.
fn selector_of(alloc: Global, mount: &Mount) -> Result<Path, Memory>
    ensures { IfOk result (λ p. p ≡ selector_of mount.now) }
{
    if MountType::Tmpfs.is_of(mount) {
        return Ok(Path::root(alloc));
    }
    path_in(alloc, &mount.selector)
}

// Returns the tree that a mount has at first: for a bind mount with an input the tree of this input, else the empty tree.
fn tree_shown(alloc: Global, inputs: &[Tree], mount: &Mount) -> Result<Tree, Memory>
    ensures { IfOk result (λ t. t ≡ tree_shown inputs.now mount.now) }
{
    if !MountType::Bind.is_of(mount) {
        return Ok(Tree::empty(alloc)?);
    }
    match input_tree(inputs, mount.input) {
        Some(tree) => Ok(tree.copy()?),
        None => Ok(Tree::empty(alloc)?),
    }
}

/// Returns the tree of the input with this number; `None`, which means the empty tree, if there is no such input. Does not allocate.
pub fn input_tree(inputs: &[Tree], input: i64) -> Option<&Tree>
    ensures { unwrap_or (option_map (λ t. t.now) result) empty_tree ≡ base_in input inputs.now }
{
    if input < 0 {
        return None;
    }
    inputs.get(input as usize)
}

/// Returns whether a vertex has a mount that shows a cache. Does not allocate.
pub fn mounts_cache(vertex: &Vertex) -> bool
    ensures { result ≡ has_cache vertex.now }
{
    for mount in mounts_of(&vertex.op.kind) {
        if MountType::Cache.is_of(mount) {
            return true;
        }
    }
    false
}
