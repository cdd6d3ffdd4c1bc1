//! Finds the first rule on file ops that an op breaks.

ghost use Rattle.std.specs.Prelude.{◌≡◌, ◌+◌, ◌↔◌, Some, IfOk, IsTrue};
ghost use Rattle.llb_ops.specs.declared.op.Kind.TheVariants as kind;
ghost use Rattle.llb_loader.specs.Rules.{TakeInputs, TakesSecond, IsInput, outputs_of};
ghost use Rattle.llb_loader.specs.RulesByKind.{IsFirstBroken, file_rules};

use crate::fault::Rule;
use crate::indices::{are_outputs, is_input};
use llb_ops::{Action, ActionKind, FileOp, Input};
use std::alloc::{AllocError, Global};

/// Returns the first rule on file ops that the file op with these inputs breaks; `None` if the file op meets all of them.
pub(crate) fn broken_in_file(
    alloc: Global,
    inputs: &[Input],
    file: &FileOp,
) -> Result<Option<Rule>, AllocError>
    ensures { IfOk result (IsFirstBroken inputs.now (Some (kind.File file.now)) file_rules) }
{
    let actions = file.actions.as_slice();
    if actions.is_empty() {
        return Ok(Some(Rule::NoActions));
    }
    if !take_inputs(inputs.len(), actions) {
        return Ok(Some(Rule::ActionInput));
    }
    let outputs = outputs_of(alloc, actions)?;
    if !are_outputs(alloc, &outputs)? {
        return Ok(Some(Rule::ActionOutput));
    }
    Ok(None)
}

/// Returns whether each action reads only inputs from 0 to `count - 1`, results of earlier actions, or nothing.
pub fn take_inputs(count: usize, actions: &[Action]) -> bool
    ensures { IsTrue result ↔ TakeInputs count actions.now }
{
    for (place, action) in actions.iter().enumerate() {
        if !input_stands(count, place, action.input) {
            return false;
        }
        if !second_stands(count, place, action) {
            return false;
        }
    }
    true
}

// Returns whether the input is -1, one of `count` inputs, or the result of an action before index `place`.
fn input_stands(count: usize, place: usize, input: i64) -> bool
    ensures { IsTrue result ↔ IsInput (count + place) input }
{
    if input < 0 {
        return input == -1;
    }
    let input = input as usize;
    input < place || input - place < count
}

// Returns whether the second input of a copy is -1, one of `count` inputs, or an earlier result; true for other actions, which do not read a second input.
fn second_stands(count: usize, place: usize, action: &Action) -> bool
    ensures { IsTrue result ↔ TakesSecond (count + place) action.now.kind action.now.secondary_input }
{
    match &action.kind {
        Some(ActionKind::Copy(_)) => input_stands(count, place, action.secondary_input),
        _ => true,
    }
}

/// Returns the output number of each action.
pub fn outputs_of(alloc: Global, actions: &[Action]) -> Result<Vec<i64>, AllocError>
    ensures { IfOk result (λ outputs. outputs.items ≡ outputs_of actions.now) }
{
    let mut outputs = Vec::new(alloc);
    for action in actions {
        outputs.push(action.output)?;
    }
    Ok(outputs)
}
