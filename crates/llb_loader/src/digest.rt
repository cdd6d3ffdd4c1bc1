//! Computes the digest text of an entry, by which inputs name the entry.

ghost use Rattle.std.specs.Prelude.{◌≡◌, IfOk};
ghost use Rattle.llb_wire.specs.Digest.{digest_text};

use llb_wire::{Memory, Text, text_of_digest};
use sha2::{Digest, Sha256};
use std::alloc::Global;

/// Returns `sha256:` and the 64 lower-case hexadecimal digits of SHA-256 of the bytes.
pub fn digest_of(alloc: Global, bytes: &[u8]) -> Result<Text, Memory>
    ensures { IfOk result (λ text. text ≡ digest_text bytes.now) }
{
    text_of_digest(alloc, &Sha256::digest(bytes))
}
