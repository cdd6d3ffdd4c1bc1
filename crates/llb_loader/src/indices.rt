//! Checks the numbers of inputs and outputs: that an input exists, and that outputs are numbered from 0.

ghost use Rattle.std.specs.Prelude.{◌≡◌, ◌↔◌, ◌<◌, pos, IfOk, MatchOption, IsTrue};
ghost use Rattle.llb_loader.specs.Rules.{IsInput, IsBelow, is_output, AreOutputs, count_outputs};

use std::alloc::{AllocError, Global};

/// Returns whether the number is from -1 to `count - 1`: the number of an input, or -1 for none.
pub(crate) fn is_input(count: usize, number: i64) -> bool
    ensures { IsTrue result ↔ IsInput count number }
{
    if number < 0 {
        return number == -1;
    }
    (number as usize) < count
}

/// Returns whether the outputs other than -1 are numbered from 0, each once.
pub fn are_outputs(alloc: Global, outputs: &[i64]) -> Result<bool, AllocError>
    ensures { IfOk result (λ stand. IsTrue stand ↔ AreOutputs outputs.now) }
{
    let count = count_among(outputs);
    let mut seen = vec![in alloc; false; count]?;
    for output in outputs {
        if is_output(output) {
            let Some(place) = output_below(count, output) else {
                return Ok(false);
            };
            if seen[place] {
                return Ok(false);
            }
            seen[place] = true;
        }
    }
    Ok(true)
}

// Returns the number of outputs other than -1.
fn count_among(outputs: &[i64]) -> usize
    ensures { result ≡ count_outputs outputs.now }
{
    let mut count = 0;
    for output in outputs {
        if is_output(output) {
            count += 1;
        }
    }
    count
}

// Returns whether the number is other than -1.
fn is_output(number: &i64) -> bool
    ensures { result ≡ is_output number.now }
{
    *number != -1
}

// Returns the output number as an index; `None` if the number is not from 0 to `count - 1`.
fn output_below(count: usize, output: &i64) -> Option<usize>
    ensures { MatchOption result (¬ IsBelow count output.now) (λ k. (k < count) × (output.now ≡ pos k)) }
{
    if *output < 0 {
        return None;
    }
    let place = *output as usize;
    if place < count { Some(place) } else { None }
}
