//! Why a command of the exec that a worker runs fails on the trees that the worker works on now; and the line that says why a command fails or an action is
//! refused.

ghost use Rattle.std.specs.Prelude.{◌≡◌, ◌++◌, length, option_map, slice_get, IfOk, IfErr, string_bytes};
ghost use Rattle.llb_model.specs.State.{runs};
ghost use Rattle.llb_execution.specs.ModelValues.{step_in};
ghost use Rattle.llb_session.specs.Reasons.{shown_now, mounts_run, vertex_run, cause_in, cause_at, before_path, after_path, cause_text};
ghost use Rattle.llb_session.specs.ReasonLines.{why_lines, why_at};
ghost use Rattle.llb_stepper.specs.declared.fault.StepperFault.TheVariants as refusal;

use crate::action_reasons::{push_refusal, refusal_at};
use llb_applet::{Cause, View, What, why_failed};
use llb_board::{Board, WorkerStatus};
use llb_execution::{MicroStep, Program};
use llb_fileop::Refusal;
use llb_loader::Vertex;
use llb_stepper::StepperFault;
use llb_treetext::push_path;
use std::alloc::{AllocError, Global};

// Returns the mounts of the exec that a worker runs, in which a mount that shows a cache has the empty tree; `None` if it runs none.
fn mounts_run(board: &Board, w: u32) -> Option<&View>
    ensures { option_map (λ v. v.now) result ≡ mounts_run (runs (slice_get board.now.state.workers w)) }
{
    board.workspace(w)?.mounts()
}

/// Returns the vertex that a worker runs; `None` if it runs none.
pub fn vertex_run(board: &Board, w: u32) -> Option<&Vertex>
    ensures { option_map (λ v. v.now) result ≡ vertex_run board.now.build (runs (slice_get board.now.state.workers w)) }
{
    match board.worker(w) {
        Some(WorkerStatus::Runs(v, _, _)) => board.graph().vertices().get(v as usize),
        _ => None,
    }
}

// Returns a copy of these mounts with the trees that a worker works on now.
fn view_now(board: &Board, w: u32, mounts: &View) -> Result<View, StepperFault>
    ensures view { IfOk result (λ v. v ≡ shown_now board.now.state w mounts.now (length mounts.now)) }
    ensures memory { IfErr result (λ e. e ≡ refusal.Memory) }
{
    let Ok(mut view) = mounts.copy() else {
        return Err(StepperFault::Memory);
    };
    for i in 0..mounts.mounts().len() as u32 {
        if let Some(tree) = board.worked_on(w, i) {
            let Ok(copy) = tree.copy() else {
                return Err(StepperFault::Memory);
            };
            view.swap_tree(i, copy);
        }
    }
    Ok(view)
}

// Returns why a micro-step fails on these mounts; `None` if it is no command, or does not fail.
fn cause_in(
    alloc: Global,
    view: &View,
    step: Option<MicroStep<'_>>,
) -> Result<Option<Cause>, StepperFault>
    ensures cause { IfOk result (λ c. c ≡ cause_in view.now (option_map step_in step.entry)) }
    ensures memory { IfErr result (λ e. e ≡ refusal.Memory) }
{
    match step {
        Some(MicroStep::Run(setting, command, _)) => {
            match why_failed(alloc, &command.command, setting, view) {
                Ok(cause) => Ok(cause),
                Err(_) => Err(StepperFault::Memory),
            }
        }
        _ => Ok(None),
    }
}

// Returns why command `k` of the exec that a worker runs fails on the trees that the worker works on now; `None` if there is no such command, or it does not
// fail.
fn cause_at(alloc: Global, board: &Board, w: u32, k: u32) -> Result<Option<Cause>, StepperFault>
    ensures cause { IfOk result (λ c. c ≡ cause_at board.now.build board.now.state w k) }
    ensures memory { IfErr result (λ e. e ≡ refusal.Memory) }
{
    let Some(mounts) = mounts_run(board, w) else {
        return Ok(None);
    };
    let Some(vertex) = vertex_run(board, w) else {
        return Ok(None);
    };
    let view = view_now(board, w, mounts)?;
    let Ok(program) = Program::of(alloc, vertex) else {
        return Err(StepperFault::Memory);
    };
    cause_in(alloc, &view, program.steps().get(k))
}

// Returns what is said before the path of a cause.
fn before_path(what: What) -> &'static str
    ensures { result.now ≡ before_path what }
{
    match what {
        What::Nothing => "nothing is at ",
        What::NoFile => "there is no file ",
        What::NoDir => "there is no directory ",
        What::NoSelector => "the selector of the mount ",
        What::ReadOnly => "the mount ",
        What::TooLong => "",
        What::IsFile => "",
        What::IsDir => "",
        What::IsThere => "",
        What::IsDest => "",
    }
}

// Returns what is said after the path of a cause.
fn after_path(what: What) -> &'static str
    ensures { result.now ≡ after_path what }
{
    match what {
        What::TooLong => " has more than 128 names in the tree of its mount",
        What::IsFile => " is a file",
        What::IsDir => " is a directory",
        What::IsThere => " is there already",
        What::IsDest => " is where a mount is",
        What::NoSelector => " is nothing in its tree",
        What::ReadOnly => " is read-only",
        What::Nothing => "",
        What::NoFile => "",
        What::NoDir => "",
    }
}

// Appends a cause in words to a text.
fn push_cause(text: &mut String, cause: &Cause) -> Result<(), AllocError>
    ensures { IfOk result (λ _. string_bytes text.new ≡ string_bytes text.old ++ cause_text cause.now) }
{
    match cause {
        Cause::Always => text.push_str("it always fails")?,
        Cause::NoPath(n) => write!(text, "word {n} is not a path")?,
        Cause::At(what, path) => {
            text.push_str(before_path(*what))?;
            push_path(text, path)?;
            text.push_str(after_path(*what))?;
        }
    }
    Ok(())
}

// Returns the line with a cause or a refusal; the line `none` if there is neither.
fn why_line(
    alloc: Global,
    cause: Option<Cause>,
    refusal: Option<Refusal>,
) -> Result<String, AllocError>
    ensures { IfOk result (λ s. string_bytes s ≡ why_lines cause refusal) }
{
    let mut text = String::new(alloc);
    match cause {
        Some(cause) => push_cause(&mut text, &cause)?,
        None => match refusal {
            Some(refusal) => push_refusal(&mut text, &refusal)?,
            None => text.push_str("none")?,
        },
    }
    text.push_str("\n")?;
    Ok(text)
}

/// Returns the line that says why micro-step `k` of what worker `w` runs fails on the trees that the worker works on now, if it is a command or an action and
/// fails; otherwise the line `none`.
pub(crate) fn why_text(alloc: Global, board: &Board, w: u32, k: u32) -> Result<String, StepperFault>
    ensures line { IfOk result (λ s. string_bytes s ≡ why_at board.now.build board.now.state w k) }
    ensures memory { IfErr result (λ e. e ≡ refusal.Memory) }
{
    let cause = cause_at(alloc, board, w, k)?;
    let refusal = refusal_at(alloc, board, w, k)?;
    Ok(why_line(alloc, cause, refusal)?)
}
