//! Finds the rows that are reached from a row by following inputs.

ghost use Rattle.std.specs.Prelude.{◌≡◌, ℕ, ◌<◌, ◌↔◌, length, slice_index_or, true, false, IfOk};
ghost use Rattle.llb_loader.specs.ReachedRows.{lists, InRange, Reached};

use std::alloc::{AllocError, Global};

/// Returns for each row whether it is reached from the row `start`: whether it is this row, or an input of a reached row names it. `rows` has for each row the
/// rows that its inputs name.
pub fn reached(alloc: Global, rows: &[Vec<usize>], start: usize) -> Result<Vec<bool>, AllocError>
    requires rows { InRange (lists rows.now) (length rows.now) }
    requires start { start < length rows.now }
    ensures len { IfOk result (λ seen. length seen.items ≡ length rows.now) }
    ensures exact { IfOk result (λ seen. (k : ℕ) → (slice_index_or seen.items k false ≡ true) ↔ Reached (lists rows.now) start k) }
{
    let mut seen = vec![in alloc; false; rows.len()]?;
    let mut open = Vec::new(alloc);
    seen[start] = true;
    open.push(start)?;
    while let Some(row) = open.pop() {
        let named = rows[row].as_slice();
        for input in named {
            if !seen[*input] {
                seen[*input] = true;
                open.push(*input)?;
            }
        }
    }
    Ok(seen)
}
