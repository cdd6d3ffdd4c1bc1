//! Takes the outputs of a vertex from the workspace in which its micro-steps were done.

ghost use Rattle.std.specs.Prelude.{◌≡◌, option_map, replicate};
ghost use Rattle.llb_tree.specs.Tree.{empty_tree};
ghost use Rattle.llb_model.specs.Program.{program_at, outputs_of};

use llb_execution::Workspace;
use llb_loader::Vertex;
use llb_tree::Tree;

/// Returns the outputs of a vertex, taken from the workspace after its micro-steps; none if there is no vertex. The outputs replace the empty trees in the list
/// `outputs`, so the call does not allocate.
pub(crate) fn outputs(view: Workspace, outputs: Vec<Tree>, vertex: Option<&Vertex>) -> Vec<Tree>
    requires { outputs.items ≡ replicate (program_at (option_map (λ v. v.now) vertex)).outputs empty_tree }
    ensures { result.items ≡ outputs_of (program_at (option_map (λ v. v.now) vertex.entry)) view }
{
    match vertex {
        Some(vertex) => view.into_outputs(outputs, vertex),
        None => outputs,
    }
}
