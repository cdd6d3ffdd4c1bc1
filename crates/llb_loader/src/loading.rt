//! Loads a definition: each entry becomes a row with the digest text of the entry. Each entry is dropped as soon as it is read as an op.

ghost use Rattle.std.specs.Prelude.{◌≡◌, ◌≤◌, false, length, IfOk, IfErr};
ghost use Rattle.llb_loader.specs.Faults.{is_memory};
ghost use Rattle.llb_loader.specs.GraphOfRowsResult.{IsGraphOf, IsRefusalOf};
ghost use Rattle.llb_loader.specs.LoadResult.{IsGraphIn, IsRefusalIn, rows_from};
ghost use Rattle.llb_loader.specs.RowsWithoutBytes.{titles_from};

use crate::digest::digest_of;
use crate::fault::LoadFault;
use crate::graph::Graph;
use crate::graph_of_rows::link_entries;
use crate::row::Row;
use llb_ops::{Entries, read_definition};
use llb_wire::{Bytes, Memory};
use std::alloc::Global;

/// Returns the graph of a definition. Each entry becomes a row with the digest text of its bytes.
///
/// Fails with 81 `Definition` if the bytes can't be read as a definition, else as `link` does. Fails with 91 `Memory` if
/// memory is refused.
pub fn load(alloc: Global, bytes: &[u8]) -> Result<Graph, LoadFault>
    ensures graph { IfOk result (λ g. IsGraphIn bytes.now g) }
    ensures refused { IfErr result (λ e. is_memory e ≡ false → IsRefusalIn bytes.now e) }
{
    let entries = read_definition(alloc, bytes)?;
    linked(alloc, entries)
}

/// Loads a definition as `load` does, but takes ownership of the bytes, which are dropped once the entries are read.
/// Fails as `load` does.
pub fn load_owned(alloc: Global, bytes: Vec<u8>) -> Result<Graph, LoadFault>
    ensures graph { IfOk result (λ g. IsGraphIn bytes.items g) }
    ensures refused { IfErr result (λ e. is_memory e ≡ false → IsRefusalIn bytes.items e) }
{
    let entries = read_definition(alloc, &bytes)?;
    drop(bytes);
    linked(alloc, entries)
}

// Returns the graph of entries, each of which becomes a row with the digest text of its bytes.
fn linked(alloc: Global, entries: Entries) -> Result<Graph, LoadFault>
    requires { length entries ≤ 65_536 }
    ensures graph { IfOk result (λ g. IsGraphOf (rows_from entries) g) }
    ensures refused { IfErr result (λ e. is_memory e ≡ false → IsRefusalOf (rows_from entries) e) }
{
    let rows = titles_of(alloc, entries.as_slice())?;
    link_entries(alloc, rows, entries.into_vec())
}

// Returns for each entry a row with the entry's digest text and with empty bytes.
fn titles_of(alloc: Global, entries: &[Bytes]) -> Result<Vec<Row>, Memory>
    ensures { IfOk result (λ rows. rows.items ≡ titles_from entries.now) }
{
    let mut rows = Vec::with_capacity(alloc, entries.len())?;
    for bytes in entries {
        let digest = digest_of(alloc, bytes.as_slice())?;
        rows.push(Row::bare(alloc, digest))?;
    }
    Ok(rows)
}
