//! Loads a definition, and the same definition with other names of local sources.

ghost use Rattle.std.specs.Prelude.{◌≡◌, ◌↔◌, IfErr, IfOk, IfSome, IsTrue, Ok, Some, None, false, map, option_map, slice_get};
ghost use Rattle.std.specs.List.{position_or_len};
ghost use Rattle.std.specs.Str.{bytes_eq};
ghost use Rattle.llb_wire.specs.Digest.{digest_text};
ghost use Rattle.llb_ops.specs.declared.op.Op.{Op};
ghost use Rattle.llb_ops.specs.Messages.{op_of};
ghost use Rattle.llb_loader.specs.Faults.{is_memory};
ghost use Rattle.llb_loader.specs.LocalSources.{local_name};
ghost use Rattle.llb_laws.specs.Definitions.{IsKindRewritten};
ghost use Rattle.llb_laws.specs.Renaming.{AreInputsAlike, AreNamedAlike, AreNotRenamed, AreOpsAlike, ArePartners, AreRenamed, LoadRenamed};
ghost use Rattle.llb_laws.specs.Refusals.{IsRefusalOfTwo};
ghost use Rattle.llb_laws.specs.Renaming.{partner_in, renamed_by};

use crate::two_graphs::rewritten_has_same_result;
use llb_loader::{Graph, LoadFault, load};
use llb_ops::{Input, Kind, Op, OpFault, read_definition, read_op};
use llb_wire::{Bytes, Memory, Same, Text, text_of_digest};
use sha2::{Digest, Sha256};
use std::alloc::Global;

// Returns the name of a local source; `None` if the op is no local source.
fn name_of(op: &Op) -> Option<&str>
    ensures { option_map (λ t. t.now) result ≡ local_name op.now }
{
    match &op.kind {
        Some(Kind::Source(source)) => source.get().identifier.as_str().strip_prefix("local://"),
        _ => None,
    }
}

// Returns the new name of a source, by the first pair with its name; without such a pair the name stays.
fn new_name<'a>(names: &'a [(Text, Text)], name: &'a str) -> &'a str
    ensures { result.now ≡ renamed_by names.now name.now }
{
    for pair in names {
        if pair.0.as_str() == name {
            return pair.1.as_str();
        }
    }
    name
}

// Returns whether both ops have the same kind; of local sources, whether the second has the first's new name.
fn is_kind_renamed(names: &[(Text, Text)], op: &Op, other: &Op) -> bool
    ensures { IsTrue result ↔ IsKindRewritten (renamed_by names.now) op.now other.now }
{
    match (name_of(op), name_of(other)) {
        (None, _) => op.kind.same(&other.kind),
        (Some(name), Some(new)) => new_name(names, name) == new,
        (Some(_), None) => false,
    }
}

// Returns whether this digest is at place `k`.
fn is_at(digests: &[Text], k: usize, digest: &Text) -> bool
    ensures { IsTrue result ↔ (slice_get digests.now k ≡ Some digest.now) }
{
    match digests.get(k) {
        Some(one) => one.same(digest),
        None => false,
    }
}

// Returns whether the inputs name the same output of partners, given the digests of all entries and, place by place, of their partners.
fn are_named_alike(digests: &[Text], others: &[Text], input: &Input, other: &Input) -> bool
    ensures { IsTrue result ↔ AreNamedAlike digests.now others.now input.now other.now }
{
    if input.index != other.index {
        return false;
    }
    for k in 0..digests.len() {
        if is_at(digests, k, &input.digest) && !is_at(others, k, &other.digest) {
            return false;
        }
    }
    true
}

// Returns whether the ops have as many inputs, which name the same outputs of partners.
fn are_inputs_alike(digests: &[Text], others: &[Text], op: &Op, other: &Op) -> bool
    ensures { IsTrue result ↔ AreInputsAlike digests.now others.now op.now other.now }
{
    let inputs = op.inputs.as_slice();
    let renamed = other.inputs.as_slice();
    if inputs.len() != renamed.len() {
        return false;
    }
    for i in 0..inputs.len() {
        if !are_named_alike(digests, others, &inputs[i], &renamed[i]) {
            return false;
        }
    }
    true
}

// Reads an op; `None` if the bytes are no op.
fn op_in(alloc: Global, entry: &Bytes) -> Result<Option<Op>, Memory>
    ensures some { IfOk result (λ made. IfSome made (λ op. op_of entry.now ≡ Ok op)) }
    ensures none { IfOk result (λ made. made ≡ None → (op : Op) → ¬ (op_of entry.now ≡ Ok op)) }
{
    match read_op(alloc, entry.as_slice()) {
        Ok(op) => Ok(Some(op)),
        Err(OpFault::Memory) => Err(Memory),
        Err(_) => Ok(None),
    }
}

// Returns whether the second entry spells the first one's op with other names, if both spell ops.
fn is_entry_renamed(
    alloc: Global,
    names: &[(Text, Text)],
    digests: &[Text],
    others: &[Text],
    entry: &Bytes,
    other: &Bytes,
) -> Result<bool, Memory>
    ensures { IfOk result (λ is. IsTrue is ↔ AreOpsAlike names.now digests.now others.now entry.now other.now) }
{
    let Some(op) = op_in(alloc, entry)? else {
        return Ok(true);
    };
    let Some(renamed) = op_in(alloc, other)? else {
        return Ok(true);
    };
    if !is_kind_renamed(names, &op, &renamed) {
        return Ok(false);
    }
    Ok(are_inputs_alike(digests, others, &op, &renamed))
}

// Returns the place at which the list first has the entry, or the length of the list if it has not.
fn first_place(entries: &[Bytes], entry: &Bytes) -> usize
    ensures { result ≡ position_or_len (bytes_eq entry.now) entries.now }
{
    for k in 0..entries.len() {
        if entries[k].same(entry) {
            return k;
        }
    }
    entries.len()
}

// Returns whether this is the partner of the entry.
fn is_partner(entries: &[Bytes], others: &[Bytes], entry: &Bytes, partner: &Bytes) -> bool
    ensures { IsTrue result ↔ (partner_in entries.now others.now entry.now ≡ partner.now) }
{
    match others.get(first_place(entries, entry)) {
        Some(one) => one.same(partner),
        None => partner.as_slice().is_empty(),
    }
}

// Returns whether there are as many entries in both lists, and equal ones have equal partners.
fn are_partners(entries: &[Bytes], others: &[Bytes]) -> bool
    ensures { IsTrue result ↔ ArePartners entries.now others.now }
{
    if entries.len() != others.len() {
        return false;
    }
    for k in 0..entries.len() {
        if !is_partner(entries, others, &entries[k], &others[k]) {
            return false;
        }
    }
    true
}

// Returns the digests of entries, as texts.
fn digests_of(alloc: Global, entries: &[Bytes]) -> Result<Vec<Text>, Memory>
    ensures { IfOk result (λ texts. texts.items ≡ map digest_text entries.now) }
{
    let mut texts = Vec::new(alloc);
    for entry in entries {
        texts.push(text_of_digest(alloc, &Sha256::digest(entry.as_slice()))?)?;
    }
    Ok(texts)
}

// Returns whether the second entries are the first ones renamed.
fn are_renamed(
    alloc: Global,
    names: &[(Text, Text)],
    entries: &[Bytes],
    others: &[Bytes],
) -> Result<bool, Memory>
    ensures { IfOk result (λ is. IsTrue is ↔ AreRenamed names.now entries.now others.now) }
{
    if !are_partners(entries, others) {
        return Ok(false);
    }
    let digests = digests_of(alloc, entries)?;
    let renamed = digests_of(alloc, others)?;
    let (digests, renamed) = (digests.as_slice(), renamed.as_slice());
    for k in 0..entries.len() {
        if !is_entry_renamed(alloc, names, digests, renamed, &entries[k], &others[k])? {
            return Ok(false);
        }
    }
    Ok(true)
}

/// Returns the graphs of a definition and of one that is the same, entry for entry, with local sources renamed by pairs of a name and its new name; `None` if
/// the second is not that. Names without a pair stay. If the trees are given under the new names, the results of the two graphs are the same. Fails with the
/// fault of `load` for the first definition, else for the second, or for want of memory. Takes time by the square of the number of entries, and by the number
/// of inputs times the number of entries.
pub fn load_renamed(
    alloc: Global,
    definition: &[u8],
    renamed: &[u8],
    names: &[(Text, Text)],
) -> Result<Option<(Graph, Graph)>, LoadFault>
    ensures some { IfOk result (λ made. IfSome made (λ graphs. LoadRenamed names.now definition.now graphs.0 renamed.now graphs.1)) }
    ensures none { IfOk result (λ made. made ≡ None → AreNotRenamed names.now definition.now renamed.now) }
    ensures refused { IfErr result (λ e. is_memory e ≡ false → IsRefusalOfTwo definition.now renamed.now e) }
{
    let graph = load(alloc, definition)?;
    let other = load(alloc, renamed)?;
    let entries = read_definition(alloc, definition)?;
    let others = read_definition(alloc, renamed)?;
    if !are_renamed(alloc, names, entries.as_slice(), others.as_slice())? {
        return Ok(None);
    }
    rewritten_has_same_result(definition, &graph, renamed, &other);
    Ok(Some((graph, other)))
}
