//! Counts the micro-steps and the outputs of an op.

ghost use Rattle.std.specs.Prelude.{◌≡◌, length, unwrap_or, []};
ghost use Rattle.llb_loader.specs.Scripts.{script_in};
ghost use Rattle.llb_loader.specs.Rules.{is_output, count_outputs, outputs_of, mount_outputs, step_count, output_count};

use llb_applet::Script;
use llb_ops::{Action, Kind, Mount, Op};

/// Returns the number of micro-steps of the op; `script` is the op's script, if it has one.
pub(crate) fn steps_of(op: &Op, script: &Option<Script>) -> usize
    requires { script.now ≡ script_in op.now }
    ensures { result ≡ step_count op.now }
{
    match &op.kind {
        Some(Kind::Source(_)) => 1,
        Some(Kind::File(file)) => file.actions.len(),
        Some(Kind::Merge(merge)) => merge.inputs.len(),
        Some(Kind::Exec(_)) => commands_among(script),
        Some(Kind::Build(_)) => 0,
        Some(Kind::Diff(_)) => 0,
        None => 0,
    }
}

fn commands_among(script: &Option<Script>) -> usize
    ensures { result ≡ length (unwrap_or script.now []) }
{
    match script {
        Some(script) => script.commands().len(),
        None => 0,
    }
}

/// Returns the number of the op's outputs.
pub fn count_of(op: &Op) -> usize
    ensures { result ≡ output_count op.now }
{
    match &op.kind {
        Some(Kind::Source(_)) => 1,
        Some(Kind::Merge(_)) => 1,
        Some(Kind::File(file)) => outputs_among(file.actions.as_slice()),
        Some(Kind::Exec(exec)) => mount_outputs_among(exec.get().mounts.as_slice()),
        Some(Kind::Build(_)) => 0,
        Some(Kind::Diff(_)) => 0,
        None => 0,
    }
}

fn outputs_among(actions: &[Action]) -> usize
    ensures { result ≡ count_outputs (outputs_of actions.now) }
{
    let mut count = 0;
    for action in actions {
        if has_output(action) {
            count += 1;
        }
    }
    count
}

fn mount_outputs_among(mounts: &[Mount]) -> usize
    ensures { result ≡ count_outputs (mount_outputs mounts.now) }
{
    let mut count = 0;
    for mount in mounts {
        if mount_has_output(mount) {
            count += 1;
        }
    }
    count
}

fn has_output(action: &Action) -> bool
    ensures { result ≡ is_output action.now.output }
{
    action.output != -1
}

fn mount_has_output(mount: &Mount) -> bool
    ensures { result ≡ is_output mount.now.output }
{
    mount.output != -1
}
