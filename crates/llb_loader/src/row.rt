//! A row: an entry and its digest text.

ghost use Rattle.std.specs.Prelude.{◌≡◌, []};

use llb_wire::{Bytes, Text};
use std::alloc::Global;

/// An entry of a definition, and the digest text by which inputs name the entry.
pub struct Row {
    pub digest: Text,
    pub bytes: Bytes,
}

impl Drop for Row {
    fn drop(self) {
        let Row {
            digest: _,
            bytes: _,
        } = self;
    }
}

impl Row {
    // Makes a row with this digest text and with empty bytes.
    pub(crate) fn bare(alloc: Global, digest: Text) -> Row
        ensures { result ≡ record { digest = digest; bytes = [] } }
    {
        let bytes = Bytes::new(Vec::new(alloc));
        Row { digest, bytes }
    }

    // Returns the digest text of the row; the text is moved, not copied.
    pub(crate) fn into_digest(self) -> Text
        ensures { result ≡ self.digest }
    {
        let Row { digest, bytes: _ } = self;
        digest
    }
}
