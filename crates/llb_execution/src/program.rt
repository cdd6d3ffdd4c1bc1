//! The program of a vertex. A program borrows nothing from the vertex; it shares actions and commands with the vertex by counts of
//! owners.

ghost use Rattle.std.specs.Prelude.{◌≡◌, IfOk};
ghost use Rattle.llb_loader.specs.Rules.{mount_outputs};
ghost use Rattle.llb_model.specs.Program.{program_of};

use crate::steps::Steps;
use llb_loader::{Vertex, mounts_of};
use llb_ops::Mount;
use llb_wire::Memory;
use std::alloc::Global;
use std::marker::Model;

/// The program of a vertex: the vertex's micro-steps, how many outputs the vertex has, and for an exec the output number of each mount.
pub struct Program {
    pub(crate) steps: Steps,
    pub(crate) outputs: u32,
    pub(crate) output_numbers: Vec<i64>,
}

impl Drop for Program {
    fn drop(self) {
        let Program {
            steps: _,
            outputs: _,
            output_numbers: _,
        } = self;
    }
}

impl Model for Program {
    ghost use Rattle.llb_model.specs.Program as model;

    ghost Value = { model.Program };

    ghost view = { λ p. record { steps = p.steps; outputs = p.outputs; output_numbers = p.output_numbers.items } };
}

impl Program {
    /// Returns the program of a vertex. The program shares actions and commands with the vertex. Fails with 5 `Memory` alone.
    pub fn of(alloc: Global, vertex: &Vertex) -> Result<Program, Memory>
        ensures { IfOk result (λ p. p ≡ program_of vertex.now) }
    {
        let steps = Steps::of(alloc, vertex)?;
        let output_numbers = output_numbers_of(alloc, mounts_of(&vertex.op.kind))?;
        Ok(Program {
            steps,
            outputs: vertex.outputs,
            output_numbers,
        })
    }

    /// Returns the program's micro-steps.
    pub fn steps(&self) -> &Steps
        ensures { result.now ≡ self.now.steps }
    {
        &self.steps
    }
}

// Returns the output number of each mount.
fn output_numbers_of(alloc: Global, mounts: &[Mount]) -> Result<Vec<i64>, Memory>
    ensures { IfOk result (λ v. v.items ≡ mount_outputs mounts.now) }
{
    let mut numbers = Vec::new(alloc);
    for mount in mounts {
        numbers.push(mount.output)?;
    }
    Ok(numbers)
}
