//! One micro-step, as a value that borrows from the vertex's list of micro-steps (`Steps`). Nothing here does a micro-step.

ghost use Rattle.std.specs.Prelude.{◌≡◌, ◌∷◌, [], map, option_map, slice_get};
ghost use Rattle.llb_model.specs.Program.{ReadLocal, Act, LayInput, runs_of};
ghost use Rattle.llb_execution.specs.ModelValues.{step_in};

use llb_applet::{Joined, Setting};
use llb_ops::Action;

/// One micro-step of a vertex.
#[derive(Clone, Copy)]
pub enum MicroStep<'a> {
    /// Reads a source's local tree.
    ReadLocal,
    /// Does an action of a file op.
    Act(&'a Action),
    /// Lays the input with this number over a merge's result so far.
    LayInput(i64),
    /// Runs or skips a command of an exec: the setting (directory and variables), the command, and the commands after it.
    Run(&'a Setting, &'a Joined, &'a [Joined]),
}

// Returns the one micro-step of a source if `k` is 0, else `None`.
pub(crate) fn read_at<'a>(k: u32) -> Option<MicroStep<'a>>
    ensures { option_map step_in result ≡ slice_get (ReadLocal ∷ []) k }
{
    if k > 0 {
        return None;
    }
    Some(MicroStep::ReadLocal)
}

// Returns the micro-step that does the action at index `k`; `None` past the end.
pub(crate) fn act_at<'a>(actions: &'a [Action], k: u32) -> Option<MicroStep<'a>>
    ensures { option_map step_in result ≡ slice_get (map Act actions.now) k }
{
    match actions.get(k as usize) {
        Some(action) => Some(MicroStep::Act(action)),
        None => None,
    }
}

// Returns the micro-step that lays the input with the number `numbers[k]`; `None` past the end.
pub(crate) fn lay_at<'a>(numbers: &[i64], k: u32) -> Option<MicroStep<'a>>
    ensures { option_map step_in result ≡ slice_get (map LayInput numbers.now) k }
{
    match numbers.get(k as usize) {
        Some(number) => Some(MicroStep::LayInput(*number)),
        None => None,
    }
}

// Returns the micro-step of the command at index `k`, with the commands after it; `None` past the end.
pub(crate) fn run_at<'a>(
    setting: &'a Setting,
    commands: &'a [Joined],
    k: u32,
) -> Option<MicroStep<'a>>
    ensures { option_map step_in result ≡ slice_get (runs_of setting.now commands.now) k }
{
    if k as usize > commands.len() {
        return None;
    }
    let (_, rest) = commands.split_at(k as usize);
    match rest.split_first() {
        Some((command, later)) => Some(MicroStep::Run(setting, command, later)),
        None => None,
    }
}
