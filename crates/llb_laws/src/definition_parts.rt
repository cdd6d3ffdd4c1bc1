//! Loads a definition and a part of it: a definition that has some of its entries, in any order, and the same last entry.

ghost use Rattle.std.specs.Prelude.{◌≡◌, ◌↔◌, IfErr, IfOk, IfSome, IsTrue, None, true, false, is_ok};
ghost use Rattle.std.specs.List.{Contains};
ghost use Rattle.llb_ops.specs.Definition.{definition_of};
ghost use Rattle.llb_loader.specs.Faults.{is_memory};
ghost use Rattle.llb_laws.specs.Digests.{IsPartOf};
ghost use Rattle.llb_laws.specs.Definitions.{AreAmong, HasNoPart, HasPart, LoadToOneEnd, ShareResults, last_entry};
ghost use Rattle.llb_laws.specs.Refusals.{IsRefusalOfPart};

use crate::two_graphs::part_has_same_result;
use llb_loader::{Graph, LoadFault, load};
use llb_ops::{Entries, read_definition};
use llb_wire::{Bytes, Same};
use std::alloc::Global;

// Returns whether the entry is one of these.
fn has_entry(entries: &[Bytes], entry: &Bytes) -> bool
    ensures { IsTrue result ↔ Contains entries.now entry.now }
{
    for one in entries {
        if one.same(entry) {
            return true;
        }
    }
    false
}

// Returns whether each entry of the second list is one of the first.
fn has_entries(entries: &[Bytes], part: &[Bytes]) -> bool
    ensures { IsTrue result ↔ AreAmong entries.now part.now }
{
    for entry in part {
        if !has_entry(entries, entry) {
            return false;
        }
    }
    true
}

// Returns whether the last entries of two lists are the same; the last entry of an empty list has no bytes.
fn end_alike(entries: &[Bytes], part: &[Bytes]) -> bool
    ensures { IsTrue result ↔ (last_entry entries.now ≡ last_entry part.now) }
{
    match (entries.last(), part.last()) {
        (Some(one), Some(other)) => one.same(other),
        (Some(one), None) | (None, Some(one)) => one.as_slice().is_empty(),
        (None, None) => true,
    }
}

// Returns whether the second definition has only entries of the first, and the same last entry. Takes time by the product of the numbers of entries.
fn is_part(entries: &Entries, part: &Entries) -> bool
    ensures { IsTrue result ↔ HasPart entries.now part.now }
{
    if !has_entries(entries.as_slice(), part.as_slice()) {
        return false;
    }
    end_alike(entries.as_slice(), part.as_slice())
}

/// Returns the graphs of a definition and of a part of it, which have the same result, given the same trees of the sources at or before it; `None` if some
/// entry of `part` is no entry of the definition, or if the last entries differ. Fails with the fault of `read_definition` for the definition, else for the
/// part; if `part` is a part, with the fault of `load` for the definition, else for the part. Fails with 91 `Memory` for want of memory, if the definition can
/// be read. Takes time by the product of the numbers of entries.
pub fn load_part(
    alloc: Global,
    definition: &[u8],
    part: &[u8],
) -> Result<Option<(Graph, Graph)>, LoadFault>
    ensures some { IfOk result (λ made. IfSome made (λ graphs. LoadToOneEnd definition.now graphs.0 part.now graphs.1
        × IsPartOf part.now definition.now × ShareResults graphs.0 graphs.1)) }
    ensures none { IfOk result (λ made. made ≡ None → HasNoPart definition.now part.now) }
    ensures refused { IfErr result (λ e. is_memory e ≡ false → IsRefusalOfPart definition.now part.now e) }
    ensures last { IfErr result (λ e. is_memory e ≡ true → is_ok (definition_of definition.now) ≡ true) }
{
    let entries = read_definition(alloc, definition)?;
    let others = read_definition(alloc, part)?;
    if !is_part(&entries, &others) {
        return Ok(None);
    }
    let graph = load(alloc, definition)?;
    let smaller = load(alloc, part)?;
    part_has_same_result(definition, &graph, part, &smaller);
    Ok(Some((graph, smaller)))
}
