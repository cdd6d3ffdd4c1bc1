//! Takes the outputs of a vertex from its workspace after all micro-steps. For each output there is an empty tree, made
//! beforehand, which the output replaces. Nothing here allocates.

ghost use Rattle.std.specs.Prelude.{◌≡◌, map, length, replicate, slice_get};
ghost use Rattle.std.specs.List.{range_with_len};
ghost use Rattle.llb_tree.specs.Tree.{empty_tree};
ghost use Rattle.llb_loader.specs.Rules.{mount_outputs};
ghost use Rattle.llb_model.specs.Program.{program_of, tree_for, outputs_of};
ghost use Rattle.llb_execution.specs.ModelValues.{own_of};
ghost use Rattle.llb_execution.specs.Outputs.{actions_in, numbers_of, tree_by, first_placed, placed, placed_by};

use crate::workspace::WorkState;
use llb_loader::{Vertex, mounts_of};
use llb_mount::Shown;
use llb_ops::{Action, Kind, Mount};
use llb_tree::Tree;

/// Returns the outputs of a vertex, from the data of its workspace after all micro-steps. `outputs` must have an empty tree for each output; in the result each
/// output that the workspace has is in place of its empty tree.
pub(crate) fn outputs_of(own: WorkState, outputs: Vec<Tree>, vertex: &Vertex) -> Vec<Tree>
    requires { outputs.items ≡ replicate (length outputs.items) empty_tree }
    ensures { result.items ≡ outputs_of (record (program_of vertex.now) { outputs = length outputs.items }) (own_of own) }
{
    match own {
        WorkState::Local(tree) => place_first(outputs, tree),
        WorkState::Layers(_, tree) => place_first(outputs, tree),
        WorkState::Files(_, results) => place_all(outputs, results, actions_of(&vertex.op.kind)),
        WorkState::Mounted(view, _, _) => {
            let mounts = view.into_mounts().into_vec();
            place_shown(outputs, mounts, mounts_of(&vertex.op.kind))
        }
    }
}

// Returns the actions of a kind: those of a file op, and none for other kinds.
fn actions_of(kind: &Option<Kind>) -> &[Action]
    ensures { result.now ≡ actions_in kind.now }
{
    match kind {
        Some(Kind::File(file)) => file.actions.as_slice(),
        _ => &[],
    }
}

// Puts a tree in place of output 0; does nothing if there are no outputs.
fn place_first(mut outputs: Vec<Tree>, tree: Tree) -> Vec<Tree>
    ensures { result.items ≡ first_placed tree outputs.items }
{
    if !outputs.is_empty() {
        outputs[0] = tree;
    }
    outputs
}

// Puts each result in place of the output of its action, from the last result to the first. So if two results have the same output number, the earlier result
// stays.
fn place_all(mut outputs: Vec<Tree>, mut results: Vec<Tree>, actions: &[Action]) -> Vec<Tree>
    requires { outputs.items ≡ replicate (length outputs.items) empty_tree }
    ensures { result.items ≡ map (λ i. tree_by i (numbers_of actions.now) results.items) (range_with_len 0 (length outputs.items)) }
{
    while let Some(tree) = results.pop() {
        place(&mut outputs, action_output(actions, results.len()), tree);
    }
    outputs
}

// Puts the whole tree of each mount in place of the mount's output, from the last mount to the first. So if two mounts have the same output number, the
// tree of the earlier mount stays.
fn place_shown(mut outputs: Vec<Tree>, mut mounts: Vec<Shown>, given: &[Mount]) -> Vec<Tree>
    requires { outputs.items ≡ replicate (length outputs.items) empty_tree }
    ensures { result.items ≡ map (λ i. tree_for i (mount_outputs given.now) mounts.items) (range_with_len 0 (length outputs.items)) }
{
    while let Some(shown) = mounts.pop() {
        place(
            &mut outputs,
            mount_output(given, mounts.len()),
            shown.into_tree(),
        );
    }
    outputs
}

fn action_output(actions: &[Action], a: usize) -> Option<i64>
    ensures { result ≡ slice_get (numbers_of actions.now) a }
{
    match actions.get(a) {
        Some(action) => Some(action.output),
        None => None,
    }
}

fn mount_output(mounts: &[Mount], m: usize) -> Option<i64>
    ensures { result ≡ slice_get (mount_outputs mounts.now) m }
{
    match mounts.get(m) {
        Some(mount) => Some(mount.output),
        None => None,
    }
}

// Puts a tree in place of the output with this number; does nothing if the number is `None`, or there is no such output.
fn place(outputs: &mut Vec<Tree>, number: Option<i64>, tree: Tree)
    ensures { outputs.new.items ≡ placed_by number tree outputs.old.items }
{
    match number {
        None => {}
        Some(output) => put(outputs, output, tree),
    }
}

// Puts a tree in place of the output with this number; does nothing if there is no such output.
fn put(outputs: &mut Vec<Tree>, output: i64, tree: Tree)
    ensures { outputs.new.items ≡ placed output tree outputs.old.items }
{
    if output >= 0 && (output as usize) < outputs.len() {
        outputs[output as usize] = tree;
    }
}
