//! Why an action of the file op that a worker runs is refused on the trees that the worker works on now.

ghost use Rattle.std.specs.Prelude.{◌≡◌, ◌++◌, option_map, slice_get, IfOk, IfErr, string_bytes};
ghost use Rattle.llb_model.specs.Program.{trees_in};
ghost use Rattle.llb_model.specs.State.{runs};
ghost use Rattle.llb_execution.specs.ModelValues.{step_in};
ghost use Rattle.llb_session.specs.ActionReasons.{own_run, refusal_among, refusal_in, refusal_at, field_name, before_obstacle, after_obstacle};
ghost use Rattle.llb_session.specs.ActionReasons.{before_subject, subject, after_subject, refusal_text};
ghost use Rattle.llb_stepper.specs.declared.fault.StepperFault.TheVariants as refusal;

use crate::reasons::vertex_run;
use llb_board::Board;
use llb_execution::{MicroStep, Program, Workspace};
use llb_fileop::{ActFault, Field, Obstacle, Refusal, why_refused};
use llb_ops::Action;
use llb_stepper::StepperFault;
use llb_tree::Tree;
use llb_treetext::push_path;
use std::alloc::{AllocError, Global};

// Returns the workspace of what a worker runs; `None` if it runs nothing.
fn own_run(board: &Board, w: u32) -> Option<&Workspace>
    ensures { option_map (λ o. o.now) result ≡ own_run (runs (slice_get board.now.state.workers w)) }
{
    board.workspace(w)
}

// Returns why an action is refused on the trees of a workspace.
fn refusal_among(
    alloc: Global,
    own: &Workspace,
    action: &Action,
) -> Result<Option<Refusal>, ActFault>
    ensures { IfOk result (λ r. r ≡ refusal_among action.now (trees_in own.now)) }
{
    let second = own.tree(action.secondary_input);
    match own.tree(action.input) {
        Some(base) => why_refused(alloc, action, base, second),
        None => why_refused(alloc, action, &Tree::empty(alloc)?, second),
    }
}

// Returns why a micro-step is refused on a workspace; `None` if it is no action, or is not refused.
fn refusal_in(
    alloc: Global,
    own: &Workspace,
    step: Option<MicroStep<'_>>,
) -> Result<Option<Refusal>, StepperFault>
    ensures refusal { IfOk result (λ r. r ≡ refusal_in own.now (option_map step_in step.entry)) }
    ensures memory { IfErr result (λ e. e ≡ refusal.Memory) }
{
    match step {
        Some(MicroStep::Act(action)) => match refusal_among(alloc, own, action) {
            Ok(refusal) => Ok(refusal),
            Err(_) => Err(StepperFault::Memory),
        },
        _ => Ok(None),
    }
}

/// Returns why action `k` of the file op that a worker runs is refused on the trees that the worker works on now; `None` if there is no such action, or it is
/// not refused.
pub fn refusal_at(
    alloc: Global,
    board: &Board,
    w: u32,
    k: u32,
) -> Result<Option<Refusal>, StepperFault>
    ensures refusal { IfOk result (λ r. r ≡ refusal_at board.now.build board.now.state w k) }
    ensures memory { IfErr result (λ e. e ≡ refusal.Memory) }
{
    let Some(own) = own_run(board, w) else {
        return Ok(None);
    };
    let Some(vertex) = vertex_run(board, w) else {
        return Ok(None);
    };
    let Ok(program) = Program::of(alloc, vertex) else {
        return Err(StepperFault::Memory);
    };
    refusal_in(alloc, own, program.steps().get(k))
}

// Returns the name of a text of an action.
fn field_name(field: Field) -> &'static str
    ensures { result.now ≡ field_name field }
{
    match field {
        Field::Path => "path",
        Field::Source => "src",
        Field::Dest => "dest",
    }
}

// Returns what is said before the path at which something is wrong.
fn before_obstacle(obstacle: Obstacle) -> &'static str
    ensures { result.now ≡ before_obstacle obstacle }
{
    match obstacle {
        Obstacle::Nothing => "nothing is at ",
        Obstacle::NoSource => "nothing is at ",
        Obstacle::NoDir => "there is no directory ",
        Obstacle::TooLong => "what is at ",
        Obstacle::FileAbove => "",
        Obstacle::IsDir => "",
        Obstacle::IsFile => "",
        Obstacle::DirReplaced => "",
    }
}

// Returns what is said after the path at which something is wrong.
fn after_obstacle(obstacle: Obstacle) -> &'static str
    ensures { result.now ≡ after_obstacle obstacle }
{
    match obstacle {
        Obstacle::NoSource => " in the tree that it copies from",
        Obstacle::FileAbove => " is a file",
        Obstacle::IsDir => " is a directory",
        Obstacle::IsFile => " is a file",
        Obstacle::DirReplaced => " is a directory",
        Obstacle::TooLong => " would get a path of more than 128 names",
        Obstacle::Nothing => "",
        Obstacle::NoDir => "",
    }
}

// Returns what is said before the text or the path that a refusal names.
fn before_subject(refusal: &Refusal) -> &'static str
    ensures { result.now ≡ before_subject refusal.now }
{
    match refusal {
        Refusal::NotPath(_) => "the text of ",
        Refusal::NotPattern(_) => "the text of ",
        Refusal::NoMatch(_) => "nothing matches the text of ",
        Refusal::Root => "this cannot be done at the root",
        Refusal::At(obstacle, _) => before_obstacle(*obstacle),
    }
}

// Returns what is said after the text or the path that a refusal names.
fn after_subject(refusal: &Refusal) -> &'static str
    ensures { result.now ≡ after_subject refusal.now }
{
    match refusal {
        Refusal::NotPath(_) => " is not a path",
        Refusal::NotPattern(_) => " is not a pattern",
        Refusal::NoMatch(_) => "",
        Refusal::Root => "",
        Refusal::At(obstacle, _) => after_obstacle(*obstacle),
    }
}

// Appends the name of the text, or the path, that a refusal names.
fn push_subject(text: &mut String, refusal: &Refusal) -> Result<(), AllocError>
    ensures { IfOk result (λ _. string_bytes text.new ≡ string_bytes text.old ++ subject refusal.now) }
{
    match refusal {
        Refusal::NotPath(field) => text.push_str(field_name(*field)),
        Refusal::NotPattern(field) => text.push_str(field_name(*field)),
        Refusal::NoMatch(field) => text.push_str(field_name(*field)),
        Refusal::Root => text.push_str(""),
        Refusal::At(_, path) => push_path(text, path),
    }
}

/// Appends a refusal in words to a text.
pub fn push_refusal(text: &mut String, refusal: &Refusal) -> Result<(), AllocError>
    ensures { IfOk result (λ _. string_bytes text.new ≡ string_bytes text.old ++ refusal_text refusal.now) }
{
    text.push_str(before_subject(refusal))?;
    push_subject(text, refusal)?;
    text.push_str(after_subject(refusal))?;
    Ok(())
}
