//! Finds the first rule on execs that an op breaks. The rules are checked in five groups: the rules on the presence of words
//! and mounts; on paths; on the types, inputs and outputs of mounts; on cache mounts; and on the script.

ghost use Rattle.std.specs.Prelude.{◌≡◌, ◌↔◌, Some, IsSome, IfOk, IsTrue, List};
ghost use Rattle.std.specs.List.{All};
ghost use Rattle.llb_ops.specs.declared.op.Input.{Input};
ghost use Rattle.llb_ops.specs.declared.op.Kind.TheVariants as kind;
ghost use Rattle.llb_loader.specs.Rules.{IsBelow, ShowsInput, HasOptions, IsShared, IsKnownSharing, HasWord, AreMountOutputs, mount_outputs, none};
ghost use Rattle.llb_loader.specs.MountTypes.{number_of};
ghost use Rattle.llb_loader.specs.RulesByKind.{IsFirstBroken, exec_rules, word_rules, path_rules, mount_rules, cache_rules, script_rules};

use crate::cache_mounts::caches_apart;
use crate::exec_paths::{all_there, cwd_reads, dests_apart, dests_of, has_root, selectors_read};
use crate::fault::Rule;
use crate::indices::{are_outputs, is_input};
use crate::mount_type::MountType;
use llb_applet::{ScriptFault, read_script};
use llb_ops::{CacheOpt, ExecOp, Input, Mount};
use llb_wire::Memory;
use std::alloc::{AllocError, Global};

/// Returns the first rule on execs that the exec with these inputs breaks; `None` if the exec meets all of them.
pub(crate) fn broken_in_exec(
    alloc: Global,
    inputs: &[Input],
    exec: &ExecOp,
) -> Result<Option<Rule>, Memory>
    ensures { IfOk result (IsFirstBroken inputs.now (Some (kind.Exec exec.now)) (exec_rules exec.now.meta)) }
{
    if let Some(rule) = broken_word(exec) {
        return Ok(Some(rule));
    }
    if let Some(rule) = broken_path(alloc, exec)? {
        return Ok(Some(rule));
    }
    if let Some(rule) = broken_mount(alloc, inputs, exec)? {
        return Ok(Some(rule));
    }
    if let Some(rule) = broken_cache(alloc, inputs, exec)? {
        return Ok(Some(rule));
    }
    broken_script(alloc, exec)
}

// Returns the first rule that the exec breaks among these three: it has a `meta`, at least one word in `args`, and at least one mount.
fn broken_word(exec: &ExecOp) -> Option<Rule>
    ensures { (inputs : List Input) → IsFirstBroken inputs (Some (kind.Exec exec.now)) word_rules result }
{
    let Some(meta) = &exec.meta else {
        return Some(Rule::NoMeta);
    };
    if meta.args.is_empty() {
        return Some(Rule::NoArgs);
    }
    if exec.mounts.is_empty() {
        return Some(Rule::NoMounts);
    }
    None
}

// Returns the first broken rule on the paths of an exec; `None` if the exec meets these rules.
fn broken_path(alloc: Global, exec: &ExecOp) -> Result<Option<Rule>, Memory>
    ensures { IfOk result (λ broken. (inputs : List Input) → IsFirstBroken inputs (Some (kind.Exec exec.now)) path_rules broken) }
{
    let mounts = exec.mounts.as_slice();
    let dests = dests_of(alloc, mounts)?;
    if !has_root(&dests) {
        return Ok(Some(Rule::NoRoot));
    }
    if !all_there(&dests) {
        return Ok(Some(Rule::BadPath));
    }
    if !selectors_read(alloc, mounts)? {
        return Ok(Some(Rule::BadPath));
    }
    if !cwd_reads(alloc, &exec.meta)? {
        return Ok(Some(Rule::BadPath));
    }
    if !dests_apart(alloc, &dests)? {
        return Ok(Some(Rule::SameDest));
    }
    Ok(None)
}

// Returns the first broken rule on the types, the inputs and the outputs of the mounts; `None` if the exec meets these rules.
fn broken_mount(alloc: Global, inputs: &[Input], exec: &ExecOp) -> Result<Option<Rule>, AllocError>
    ensures { IfOk result (IsFirstBroken inputs.now (Some (kind.Exec exec.now)) mount_rules) }
{
    let mounts = exec.mounts.as_slice();
    if !all_known(mounts) {
        return Ok(Some(Rule::MountKind));
    }
    if !all_show(inputs.len(), mounts) {
        return Ok(Some(Rule::MountInput));
    }
    if !are_mount_outputs(alloc, mounts)? {
        return Ok(Some(Rule::MountOutput));
    }
    Ok(None)
}

/// Returns whether the type of each mount is a number from 0 to 4.
pub fn all_known(mounts: &[Mount]) -> bool
    ensures { IsTrue result ↔ All (λ m. IsBelow 5 m.mount_type) mounts.now }
{
    for mount in mounts {
        if !is_below(5, mount.mount_type) {
            return false;
        }
    }
    true
}

// Returns whether the number is at least 0 and below the count.
fn is_below(count: u32, number: i32) -> bool
    ensures { IsTrue result ↔ IsBelow count number }
{
    number >= 0 && (number as u32) < count
}

/// Returns whether each bind or cache mount shows one of `count` inputs, or nothing.
pub fn all_show(count: usize, mounts: &[Mount]) -> bool
    ensures { IsTrue result ↔ All (ShowsInput count) mounts.now }
{
    for mount in mounts {
        if !shows_input(count, mount) {
            return false;
        }
    }
    true
}

// Returns whether a bind or cache mount shows one of `count` inputs, or nothing; true for mounts of other types.
fn shows_input(count: usize, mount: &Mount) -> bool
    ensures { IsTrue result ↔ ShowsInput count mount.now }
{
    if MountType::Bind.is_of(mount) {
        return is_input(count, mount.input);
    }
    if MountType::Cache.is_of(mount) {
        return is_input(count, mount.input);
    }
    true
}

/// Returns whether the outputs of the mounts are numbered from 0, each once, and no cache or tmpfs mount has an output.
pub fn are_mount_outputs(alloc: Global, mounts: &[Mount]) -> Result<bool, AllocError>
    ensures { IfOk result (λ stand. IsTrue stand ↔ AreMountOutputs mounts.now) }
{
    if !all_silent(MountType::Cache, mounts) {
        return Ok(false);
    }
    if !all_silent(MountType::Tmpfs, mounts) {
        return Ok(false);
    }
    let outputs = outputs_of(alloc, mounts)?;
    are_outputs(alloc, &outputs)
}

// Returns whether no mount of this type has an output.
fn all_silent(mount_type: MountType, mounts: &[Mount]) -> bool
    ensures { IsTrue result ↔ All (λ m. m.mount_type ≡ number_of mount_type → m.output ≡ none) mounts.now }
{
    for mount in mounts {
        if mount_type.is_of(mount) {
            if mount.output != -1 {
                return false;
            }
        }
    }
    true
}

/// Returns the output number of each mount.
pub fn outputs_of(alloc: Global, mounts: &[Mount]) -> Result<Vec<i64>, AllocError>
    ensures { IfOk result (λ outputs. outputs.items ≡ mount_outputs mounts.now) }
{
    let mut outputs = Vec::new(alloc);
    for mount in mounts {
        outputs.push(mount.output)?;
    }
    Ok(outputs)
}

// Returns the first broken rule on cache mounts; `None` if the exec meets these rules.
fn broken_cache(alloc: Global, inputs: &[Input], exec: &ExecOp) -> Result<Option<Rule>, Memory>
    ensures { IfOk result (IsFirstBroken inputs.now (Some (kind.Exec exec.now)) cache_rules) }
{
    let mounts = exec.mounts.as_slice();
    if !all_have_options(mounts) {
        return Ok(Some(Rule::NoCacheOpt));
    }
    if !all_shared(mounts) {
        return Ok(Some(Rule::Sharing));
    }
    if !caches_apart(alloc, inputs, mounts)? {
        return Ok(Some(Rule::CacheTwice));
    }
    Ok(None)
}

/// Returns whether each cache mount has options.
pub fn all_have_options(mounts: &[Mount]) -> bool
    ensures { IsTrue result ↔ All HasOptions mounts.now }
{
    for mount in mounts {
        if MountType::Cache.is_of(mount) {
            if mount.cache_opt.is_none() {
                return false;
            }
        }
    }
    true
}

/// Returns whether the options of each cache mount, if there are any, name a known sharing mode.
pub fn all_shared(mounts: &[Mount]) -> bool
    ensures { IsTrue result ↔ All IsShared mounts.now }
{
    for mount in mounts {
        if MountType::Cache.is_of(mount) {
            if !is_known(&mount.cache_opt) {
                return false;
            }
        }
    }
    true
}

// Returns whether the options name a known sharing mode, 0 to 2; true if there are no options.
fn is_known(options: &Option<CacheOpt>) -> bool
    ensures { IsTrue result ↔ IsKnownSharing options.now }
{
    match options {
        Some(options) => is_below(3, options.sharing),
        None => true,
    }
}

// Reads the words of an exec as a script; if they are not a script, returns the rule that they break.
fn broken_script(alloc: Global, exec: &ExecOp) -> Result<Option<Rule>, Memory>
    requires there { IsSome exec.now.meta }
    requires words { HasWord exec.now.meta }
    ensures { IfOk result (λ broken. (inputs : List Input) → IsFirstBroken inputs (Some (kind.Exec exec.now)) (script_rules exec.now.meta) broken) }
{
    let Some(meta) = &exec.meta else {
        return Ok(None);
    };
    match read_script(alloc, meta.args.as_slice()) {
        Ok(_) => Ok(None),
        Err(ScriptFault::Memory) => Err(Memory),
        Err(fault) => Ok(Some(Rule::Script(fault))),
    }
}
