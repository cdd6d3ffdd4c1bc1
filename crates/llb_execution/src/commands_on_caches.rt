//! Runs a command on mounts, some of which show caches. The trees of the cache instances are put into their mounts for this one command, and taken out
//! afterwards. This file knows mounts and commands, but neither the keys nor the instances of caches.

ghost use Rattle.std.specs.Prelude.{◌≡◌, ◌<◌, length, replicate, IfOk, OnErr};
ghost use Rattle.std.specs.List.{All};
ghost use Rattle.llb_tree.specs.Tree.{empty_tree};
ghost use Rattle.llb_applet.specs.Commands.{run};
ghost use Rattle.llb_model.specs.Caches.{Distinct};
ghost use Rattle.llb_model.specs.Program.{Mounted, filled, taken, after_run};
ghost use Rattle.llb_execution.specs.ModelValues.{work_with};

use llb_applet::{Command, Setting, run_command};
use llb_mount::View as Mounts;
use llb_tree::Tree;
use llb_wire::Memory;
use std::alloc::Global;
use std::mem;

/// Makes `count` empty trees. Fails with 5 `Memory` alone.
pub fn empty_trees(alloc: Global, count: u32) -> Result<Vec<Tree>, Memory>
    ensures { IfOk result (λ v. v.items ≡ replicate count empty_tree) }
{
    Ok(blanks(alloc, count as usize)?)
}

// Makes `count` empty trees.
fn blanks(alloc: Global, count: usize) -> Result<Vec<Tree>, Memory>
    ensures { IfOk result (λ v. v.items ≡ replicate count empty_tree) }
{
    let mut trees = Vec::new(alloc);
    for _i in 0..count {
        trees.push(Tree::empty(alloc)?)?;
    }
    Ok(trees)
}

// Swaps, for each index `i`, tree `trees[i]` with the tree of the mount that has the number `numbers[i]`. During a swap, the spare
// tree is in the list in place of the tree that is moved to the mount. Returns the spare tree.
fn swap_all(mounts: &mut Mounts, numbers: &[u32], trees: &mut Vec<Tree>, spare: Tree) -> Tree
    requires apart { Distinct numbers.now }
    requires within { All (λ n. n < length mounts.old) numbers.now }
    requires count { length trees.old.items ≡ length numbers.now }
    ensures mounts { mounts.new ≡ filled mounts.old numbers.now trees.old.items }
    ensures trees { trees.new.items ≡ taken mounts.old numbers.now trees.old.items }
{
    let mut spare = spare;
    for i in 0..numbers.len() {
        let tree = mem::replace(&mut trees[i], spare);
        let shown = mounts.swap_tree(numbers[i], tree);
        spare = mem::replace(&mut trees[i], shown);
    }
    spare
}

// Runs a command on mounts, and returns the command's status. While the command runs, the mounts with these numbers have the trees `trees`. If the status is 0,
// `trees` has these mounts' trees as the command left them, and the mounts have the empty tree. Else, or if memory is refused, mounts and trees are unchanged.
pub(crate) fn run_filled(
    alloc: Global,
    command: &Command,
    setting: &Setting,
    mounts: &mut Mounts,
    numbers: &[u32],
    trees: &mut Vec<Tree>,
) -> Result<u32, Memory>
    requires apart { Distinct numbers.now }
    requires within { All (λ n. n < length mounts.old) numbers.now }
    requires count { length trees.old.items ≡ length numbers.now }
    ensures left { IfOk result (λ status. work_with (Mounted mounts.new numbers.now status) trees.new.items
        ≡ after_run mounts.old numbers.now trees.old.items (run setting.now (filled mounts.old numbers.now trees.old.items) command.now)) }
    ensures err { OnErr result ((mounts.new ≡ mounts.old) × (trees.new.items ≡ trees.old.items)) }
{
    if numbers.is_empty() {
        return Ok(u32::from(run_command(alloc, command, setting, mounts)?));
    }
    let spare = Tree::empty(alloc)?;
    let mut blanks = blanks(alloc, numbers.len())?;
    let spare = swap_all(mounts, numbers, trees, spare);
    let ran = run_command(alloc, command, setting, mounts);
    let spare = swap_all(mounts, numbers, trees, spare);
    let status = ran?;
    if status != 0 {
        return Ok(u32::from(status));
    }
    swap_all(mounts, numbers, &mut blanks, spare);
    Ok(0)
}
