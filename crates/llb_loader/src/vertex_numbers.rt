//! Finds the vertex number of each row, from the order of the rows.

ghost use Rattle.std.specs.Prelude.{◌≡◌, ℕ, ◌<◌, ◌≤◌, length, slice_index, IfOk};
ghost use Rattle.std.specs.List.{All};
ghost use Rattle.llb_loader.specs.ReachedRows.{lists};
ghost use Rattle.llb_loader.specs.Numbering.{IsNumbering};

use std::alloc::{AllocError, Global};

/// Returns the vertex number of each row; 0 for a row that has no vertex number. `order` has the numbered rows in the order of their vertex numbers.
pub(crate) fn ranks_of(
    alloc: Global,
    rows: &[Vec<usize>],
    start: usize,
    order: &[usize],
) -> Result<Vec<usize>, AllocError>
    requires numbering { IsNumbering (lists rows.now) start order.now }
    requires range { All (λ k. k < length rows.now) order.now }
    ensures len { IfOk result (λ ranks. length ranks.items ≡ length rows.now) }
    ensures inverse { IfOk result (λ ranks. (i : ℕ) → i < length order.now → slice_index ranks.items (slice_index order.now i) ≡ i) }
    ensures small { IfOk result (λ ranks. (n : ℕ) → 0 < n → length order.now ≤ n → All (λ r. r < n) ranks.items) }
{
    let mut numbers = vec![in alloc; 0; rows.len()]?;
    for (i, row) in order.iter().enumerate() {
        numbers[*row] = i;
    }
    Ok(numbers)
}
