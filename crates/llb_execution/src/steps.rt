//! The micro-steps of a vertex as a list, `Steps`, which borrows nothing. Only this code says which micro-steps a vertex has; it does none of them.

ghost use Rattle.std.specs.Prelude.{◌≡◌, ◌<◌, ◌^◌, [], IfOk, length, map, option_map, slice_get, unwrap_or};
ghost use Rattle.llb_loader.specs.Graph.{IsVertexOf};
ghost use Rattle.llb_model.specs.Program.{LayInput, runs_of, program_of, steps_of};
ghost use Rattle.llb_ops.specs.declared.merge.MergeInput as merge_input;
ghost use Rattle.llb_execution.specs.ModelValues.{step_in, steps_in};

use crate::exec_mounts::setting_with;
use crate::micro_step::{MicroStep, act_at, lay_at, read_at, run_at};
use llb_applet::{Script, Setting};
use llb_loader::Vertex;
use llb_ops::{Actions, Kind, MergeInput};
use llb_wire::Memory;
use std::alloc::Global;
use std::marker::Model;

/// The micro-steps of a vertex: one read of a source, the actions of a file op, the inputs of a merge, or the commands of an exec in
/// their setting. Actions and commands are shared with the vertex. Contracts see a `Steps` as the model's list of micro-steps.
pub struct Steps {
    pub(crate) by: ByKind,
}

impl Drop for Steps {
    fn drop(self) {
        let Steps { by: _ } = self;
    }
}

// Micro-steps by the kind of the op: none, the read of a source, actions, the numbers of a merge's inputs, or commands in their setting.
#[derive(Drop)]
pub(crate) enum ByKind {
    Nothing,
    Read,
    Actions(Actions),
    Inputs(Vec<i64>),
    Commands(Setting, Script),
}

impl Model for Steps {
    ghost use Rattle.std.specs.Prelude.{List};
    ghost use Rattle.llb_model.specs.Program as model;
    ghost use Rattle.llb_execution.specs.ModelValues.{steps_in};

    ghost Value = { List model.MicroStep };

    ghost view = { λ s. steps_in s.by };
}

impl Steps {
    /// Returns the micro-steps of a vertex. If the loader made the vertex, its field `steps` is the number of the micro-steps. Fails with 5 `Memory` alone.
    pub fn of(alloc: Global, vertex: &Vertex) -> Result<Steps, Memory>
        ensures steps { IfOk result (λ s. s ≡ (program_of vertex.now).steps) }
        ensures count { IfOk result (λ s. IsVertexOf vertex.now vertex.now.op.kind → length s ≡ vertex.now.steps) }
        ensures few { IfOk result (λ s. IsVertexOf vertex.now vertex.now.op.kind → length s < 2 ^ 32) }
    {
        // The vertex counts its micro-steps in a `u32`, so there are fewer than 2^32.
        let _count = vertex.steps;
        let by = by_kind(alloc, &vertex.op.kind, &vertex.script)?;
        Ok(Steps { by })
    }

    /// Copies the micro-steps; the copy shares actions and commands with the original. Fails with 5 `Memory` alone.
    pub fn copy(&self) -> Result<Steps, Memory>
        ensures { IfOk result (λ s. s ≡ self.now) }
    {
        let by = copy_of(&self.by)?;
        Ok(Steps { by })
    }

    /// Returns micro-step `k`, counted from 0; `None` if `k` is at least the number of micro-steps. Does not allocate.
    pub fn get(&self, k: u32) -> Option<MicroStep<'_>>
        ensures { option_map step_in result ≡ slice_get self.now k }
    {
        match &self.by {
            ByKind::Nothing => None,
            ByKind::Read => read_at(k),
            ByKind::Actions(actions) => act_at(actions.as_slice(), k),
            ByKind::Inputs(numbers) => lay_at(numbers, k),
            ByKind::Commands(setting, script) => run_at(setting, script.commands(), k),
        }
    }
}

// Returns the micro-steps of an op of this kind; for an exec, `script` has the commands.
fn by_kind(alloc: Global, kind: &Option<Kind>, script: &Option<Script>) -> Result<ByKind, Memory>
    ensures { IfOk result (λ s. steps_in s ≡ steps_of kind.now script.now) }
{
    match kind {
        Some(Kind::Source(_)) => Ok(ByKind::Read),
        Some(Kind::File(file)) => Ok(ByKind::Actions(file.actions.copy()?)),
        Some(Kind::Merge(merge)) => {
            let numbers = numbers_of(alloc, merge.inputs.as_slice())?;
            Ok(ByKind::Inputs(numbers))
        }
        Some(Kind::Exec(exec)) => {
            let setting = setting_with(alloc, &exec.get().meta)?;
            commands(setting, script)
        }
        _ => Ok(ByKind::Nothing),
    }
}

// Returns the commands of a script as micro-steps that run in this setting.
fn commands(setting: Setting, script: &Option<Script>) -> Result<ByKind, Memory>
    ensures { IfOk result (λ s. steps_in s ≡ runs_of setting (unwrap_or script.now [])) }
{
    match script {
        Some(script) => Ok(ByKind::Commands(setting, script.copy()?)),
        None => Ok(ByKind::Nothing),
    }
}

// Returns the numbers of a merge's inputs.
fn numbers_of(alloc: Global, inputs: &[MergeInput]) -> Result<Vec<i64>, Memory>
    ensures { IfOk result (λ v. v.items ≡ map (λ (i : merge_input.MergeInput). i.input) inputs.now) }
{
    let mut numbers = Vec::new(alloc);
    for input in inputs {
        numbers.push(input.input)?;
    }
    Ok(numbers)
}

// Copies micro-steps of any kind.
fn copy_of(by: &ByKind) -> Result<ByKind, Memory>
    ensures { IfOk result (λ s. steps_in s ≡ steps_in by.now) }
{
    match by {
        ByKind::Nothing => Ok(ByKind::Nothing),
        ByKind::Read => Ok(ByKind::Read),
        ByKind::Actions(actions) => Ok(ByKind::Actions(actions.copy()?)),
        ByKind::Inputs(numbers) => Ok(ByKind::Inputs(numbers.clone()?)),
        ByKind::Commands(setting, script) => {
            let setting = setting.copy()?;
            Ok(ByKind::Commands(setting, script.copy()?))
        }
    }
}
