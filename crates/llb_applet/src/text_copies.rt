//! Copies of texts.

ghost use Rattle.std.specs.Prelude.{◌≡◌, IfOk};

use llb_wire::{Memory, Text};
use std::alloc::Global;

/// Copies texts, in their order. Fails with 5 `Memory` alone.
pub fn copies(alloc: Global, texts: &[Text]) -> Result<Vec<Text>, Memory>
    ensures { IfOk result (λ v. v.items ≡ texts.now) }
{
    let mut copied = Vec::new(alloc);
    for text in texts {
        copied.push(text.copy()?)?;
    }
    Ok(copied)
}
