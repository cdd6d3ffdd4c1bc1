//! Compares two workspaces by value, the micro-steps of two vertices, and a program with the program of a vertex. Nothing here allocates: the caller makes the
//! micro-steps of the vertex beforehand, and the outputs of the program are compared with the fields of the vertex.

ghost use Rattle.std.specs.Prelude.{◌≡◌, ◌↔◌, IsTrue, [], ◌∷◌, map};
ghost use Rattle.llb_loader.specs.Rules.{mount_outputs};
ghost use Rattle.llb_model.specs.Program.{ReadLocal, Act, LayInput, runs_of, program_of};
ghost use Rattle.llb_execution.specs.ModelValues.{steps_in, own_of};

use crate::program::Program;
use crate::steps::{ByKind, Steps};
use crate::workspace::{WorkState, Workspace};
use llb_applet::{Joined, Setting};
use llb_loader::{Vertex, mounts_of};
use llb_ops::{Action, Mount};
use llb_wire::{Same, all_same};

impl Same for Workspace {
    fn same(&self, other: &Workspace) -> bool {
        same_own(&self.own, &other.own)
    }
}

// Returns whether two workspaces are equal: of one kind, and with equal trees or, for execs, equal mounts, cache mounts and last status.
fn same_own(own: &WorkState, other: &WorkState) -> bool
    ensures { IsTrue result ↔ (own_of own.now ≡ own_of other.now) }
{
    match (own, other) {
        (WorkState::Local(tree), WorkState::Local(other)) => tree.same(other),
        (WorkState::Files(inputs, results), WorkState::Files(others, also)) => {
            all_same(inputs.as_slice(), others.as_slice())
                && all_same(results.as_slice(), also.as_slice())
        }
        (WorkState::Layers(inputs, laid), WorkState::Layers(others, also)) => {
            all_same(inputs.as_slice(), others.as_slice()) && laid.same(also)
        }
        (WorkState::Mounted(mounts, numbers, last), WorkState::Mounted(others, also, other)) => {
            mounts.same(others) && all_same(numbers.as_slice(), also.as_slice()) && last == other
        }
        _ => false,
    }
}

impl Program {
    /// Returns whether this is the program of a vertex, given `steps`, the micro-steps of that vertex, which the caller has made. Does not allocate.
    pub fn is_of(&self, vertex: &Vertex, steps: &Steps) -> bool
        ensures { IsTrue result ↔ (self.now ≡ record (program_of vertex.now) { steps = steps.now }) }
    {
        self.outputs == vertex.outputs
            && are_outputs(self.output_numbers.as_slice(), mounts_of(&vertex.op.kind))
            && self.steps.same(steps)
    }
}

// Returns whether these are the output numbers of the mounts.
fn are_outputs(numbers: &[i64], mounts: &[Mount]) -> bool
    ensures { IsTrue result ↔ (numbers.now ≡ mount_outputs mounts.now) }
{
    if numbers.len() != mounts.len() {
        return false;
    }
    for i in 0..numbers.len() {
        if numbers[i] != mounts[i].output {
            return false;
        }
    }
    true
}

impl Same for Steps {
    fn same(&self, other: &Steps) -> bool {
        are_steps(&self.by, &other.by)
    }
}

// Returns whether two vertices have the same micro-steps. Vertices of different kinds have the same micro-steps only if neither vertex has any.
fn are_steps(steps: &ByKind, other: &ByKind) -> bool
    ensures { IsTrue result ↔ (steps_in steps.now ≡ steps_in other.now) }
{
    match other {
        ByKind::Nothing => are_none(steps),
        ByKind::Read => are_reads(steps),
        ByKind::Actions(actions) => are_actions(steps, actions.as_slice()),
        ByKind::Inputs(numbers) => are_layings(steps, numbers.as_slice()),
        ByKind::Commands(setting, script) => are_runs(steps, setting, script.commands()),
    }
}

// Returns whether the list of micro-steps is empty.
fn are_none(steps: &ByKind) -> bool
    ensures { IsTrue result ↔ (steps_in steps.now ≡ []) }
{
    match steps {
        ByKind::Nothing => true,
        ByKind::Read => false,
        ByKind::Actions(actions) => actions.is_empty(),
        ByKind::Inputs(numbers) => numbers.is_empty(),
        ByKind::Commands(_, script) => script.commands().is_empty(),
    }
}

// Returns whether there is exactly one micro-step, which reads the local tree of a source.
fn are_reads(steps: &ByKind) -> bool
    ensures { IsTrue result ↔ (steps_in steps.now ≡ ReadLocal ∷ []) }
{
    match steps {
        ByKind::Nothing => false,
        ByKind::Read => true,
        ByKind::Actions(_) => false,
        ByKind::Inputs(_) => false,
        ByKind::Commands(_, _) => false,
    }
}

// Returns whether the micro-steps are exactly these actions, in this order.
fn are_actions(steps: &ByKind, actions: &[Action]) -> bool
    ensures { IsTrue result ↔ (steps_in steps.now ≡ map Act actions.now) }
{
    if actions.is_empty() {
        return are_none(steps);
    }
    match steps {
        ByKind::Nothing => false,
        ByKind::Read => false,
        ByKind::Actions(own) => all_same(own.as_slice(), actions),
        ByKind::Inputs(_) => false,
        ByKind::Commands(_, _) => false,
    }
}

// Returns whether the micro-steps lay the inputs with these numbers, in this order.
fn are_layings(steps: &ByKind, numbers: &[i64]) -> bool
    ensures { IsTrue result ↔ (steps_in steps.now ≡ map LayInput numbers.now) }
{
    if numbers.is_empty() {
        return are_none(steps);
    }
    match steps {
        ByKind::Nothing => false,
        ByKind::Read => false,
        ByKind::Actions(_) => false,
        ByKind::Inputs(own) => all_same(own.as_slice(), numbers),
        ByKind::Commands(_, _) => false,
    }
}

// Returns whether the micro-steps are exactly these commands, in this order and in this setting.
fn are_runs(steps: &ByKind, setting: &Setting, commands: &[Joined]) -> bool
    ensures { IsTrue result ↔ (steps_in steps.now ≡ runs_of setting.now commands.now) }
{
    if commands.is_empty() {
        return are_none(steps);
    }
    match steps {
        ByKind::Nothing => false,
        ByKind::Read => false,
        ByKind::Actions(_) => false,
        ByKind::Inputs(_) => false,
        ByKind::Commands(own, script) => {
            own.same(setting) && all_same(script.commands(), commands)
        }
    }
}
