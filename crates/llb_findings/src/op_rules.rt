//! Finds every rule that an op breaks, in the order of the list `rules_on` in `specs/`. A rule is checked whether or not an earlier one is broken; but the
//! words of an exec are read as a script only if there are any.

ghost use Rattle.std.specs.Prelude.{◌≡◌, ◌++◌, ◌<◌, ◌↔◌, cond, [], ◌∷◌, List, length, Some, None, Ok, IsSome, IfOk, OnOk, IsTrue, codes, MatchOption};
ghost use Rattle.llb_ops.specs.declared.op.Input.{Input};
ghost use Rattle.llb_ops.specs.declared.op.Kind.TheVariants as kind;
ghost use Rattle.llb_applet.specs.CallResults.{is_memory};
ghost use Rattle.llb_loader.specs.Rules.{HasWord, rules_on};
ghost use Rattle.llb_loader.specs.Mounts.{ReadsPaths};
ghost use Rattle.llb_loader.specs.Scripts.{script_fault};
ghost use Rattle.llb_loader.specs.RulesByKind.{source_rules, file_rules, merge_rules, word_rules, path_rules, mount_rules, cache_rules, script_rules};
ghost use Rattle.llb_loader.specs.RulesByKind.{exec_rules};
ghost use Rattle.llb_findings.specs.Findings.{IsBroken};
ghost use Rattle.llb_findings.specs.Selections.{AreThose, Adds};

use llb_applet::{ScriptFault, read_script};
use llb_loader::Rule;
use llb_loader::cache_mounts::caches_apart;
use llb_loader::exec_paths::{
    all_there, cwd_reads, dests_apart, dests_of, has_root, selectors_read,
};
use llb_loader::exec_rules::{
    all_have_options, all_known, all_shared, all_show, are_mount_outputs,
};
use llb_loader::file_rules::{outputs_of, take_inputs};
use llb_loader::indices::are_outputs;
use llb_loader::rules::all_merged;
use llb_ops::{ExecOp, FileOp, Input, Kind, MergeOp, Meta, Op, SourceOp};
use llb_wire::Memory;
use std::alloc::Global;

/// Returns every rule that the op breaks.
pub(crate) fn rules_broken(alloc: Global, op: &Op) -> Result<Vec<Rule>, Memory>
    ensures { IfOk result (λ found. AreThose (IsBroken op.now.inputs op.now.kind) (rules_on op.now.kind) found.items) }
{
    let mut found = Vec::new(alloc);
    let Some(kind) = &op.kind else {
        found.push(Rule::NoKind)?;
        return Ok(found);
    };
    add_by_kind(alloc, op.inputs.as_slice(), kind, &mut found)?;
    Ok(found)
}

// Adds the rules that an op of this kind with these inputs breaks.
fn add_by_kind(
    alloc: Global,
    inputs: &[Input],
    kind: &Kind,
    found: &mut Vec<Rule>,
) -> Result<(), Memory>
    ensures { OnOk result (Adds (IsBroken inputs.now (Some kind.now)) (rules_on (Some kind.now)) found.old.items found.new.items) }
{
    match kind {
        Kind::Source(source) => {
            add_source(source.get(), found)?;
            Ok(())
        }
        Kind::File(file) => {
            add_file(alloc, inputs, file, found)?;
            Ok(())
        }
        Kind::Exec(exec) => {
            add_exec(alloc, inputs, exec.get(), found)?;
            Ok(())
        }
        Kind::Merge(merge) => {
            add_merge(inputs, merge, found)?;
            Ok(())
        }
        Kind::Build(_) => Ok(()),
        Kind::Diff(_) => Ok(()),
    }
}

// Adds the rule unless it is met.
fn add_unless(met: bool, rule: Rule, found: &mut Vec<Rule>) -> Result<(), Memory>
    ensures { OnOk result (found.new.items ≡ found.old.items ++ cond met [] (rule ∷ [])) }
{
    if met {
        return Ok(());
    }
    found.push(rule)?;
    Ok(())
}

// Adds the rule on sources if the source breaks it.
fn add_source(source: &SourceOp, found: &mut Vec<Rule>) -> Result<(), Memory>
    ensures { OnOk result ((inputs : List Input) → Adds (IsBroken inputs (Some (kind.Source source.now))) source_rules found.old.items found.new.items) }
{
    add_unless(has_name(source), Rule::LocalName, found)?;
    Ok(())
}

// Returns whether a local source has a name after `local://`; true for other sources.
fn has_name(source: &SourceOp) -> bool
    ensures { IsTrue result ↔ (¬ (source.now.identifier ≡ codes "local://")) }
{
    source.identifier.as_str().as_bytes() != b"local://".as_slice()
}

// Adds the rules on file ops that the file op with these inputs breaks.
fn add_file(
    alloc: Global,
    inputs: &[Input],
    file: &FileOp,
    found: &mut Vec<Rule>,
) -> Result<(), Memory>
    ensures { OnOk result (Adds (IsBroken inputs.now (Some (kind.File file.now))) file_rules found.old.items found.new.items) }
{
    let actions = file.actions.as_slice();
    let outputs = outputs_of(alloc, actions)?;
    let numbered = are_outputs(alloc, &outputs)?;
    add_unless(has_action(file), Rule::NoActions, found)?;
    add_unless(take_inputs(inputs.len(), actions), Rule::ActionInput, found)?;
    add_unless(numbered, Rule::ActionOutput, found)?;
    Ok(())
}

// Returns whether the file op has an action.
fn has_action(file: &FileOp) -> bool
    ensures { IsTrue result ↔ (0 < length file.now.actions) }
{
    0 < file.actions.len()
}

// Adds the rule on merges if the merge with these inputs breaks it.
fn add_merge(inputs: &[Input], merge: &MergeOp, found: &mut Vec<Rule>) -> Result<(), Memory>
    ensures { OnOk result (Adds (IsBroken inputs.now (Some (kind.Merge merge.now))) merge_rules found.old.items found.new.items) }
{
    add_unless(
        all_merged(inputs.len(), merge.inputs.as_slice()),
        Rule::MergeInput,
        found,
    )?;
    Ok(())
}

// Adds the rules on execs that the exec with these inputs breaks.
fn add_exec(
    alloc: Global,
    inputs: &[Input],
    exec: &ExecOp,
    found: &mut Vec<Rule>,
) -> Result<(), Memory>
    ensures { OnOk result (Adds (IsBroken inputs.now (Some (kind.Exec exec.now))) (exec_rules exec.now.meta) found.old.items found.new.items) }
{
    add_words(exec, found)?;
    add_paths(alloc, exec, found)?;
    add_mounts(alloc, inputs, exec, found)?;
    add_caches(alloc, inputs, exec, found)?;
    add_script(alloc, exec, found)?;
    Ok(())
}

// Adds the rules that are broken among these three: the exec has a `meta`, at least one word in `args`, and at least one mount.
fn add_words(exec: &ExecOp, found: &mut Vec<Rule>) -> Result<(), Memory>
    ensures { OnOk result ((inputs : List Input) → Adds (IsBroken inputs (Some (kind.Exec exec.now))) word_rules found.old.items found.new.items) }
{
    add_unless(has_meta(&exec.meta), Rule::NoMeta, found)?;
    add_unless(has_word(&exec.meta), Rule::NoArgs, found)?;
    add_unless(has_mount(exec), Rule::NoMounts, found)?;
    Ok(())
}

// Returns whether the exec has a mount.
fn has_mount(exec: &ExecOp) -> bool
    ensures { IsTrue result ↔ (0 < length exec.now.mounts) }
{
    0 < exec.mounts.len()
}

// Returns whether there is a `meta`.
fn has_meta(meta: &Option<Meta>) -> bool
    ensures { IsTrue result ↔ IsSome meta.now }
{
    meta.is_some()
}

// Returns whether a `meta`, if there is one, has at least one word in `args`.
fn has_word(meta: &Option<Meta>) -> bool
    ensures { IsTrue result ↔ HasWord meta.now }
{
    match meta {
        Some(meta) => 0 < meta.args.len(),
        None => true,
    }
}

// Adds the rules on the paths of the exec that are broken.
fn add_paths(alloc: Global, exec: &ExecOp, found: &mut Vec<Rule>) -> Result<(), Memory>
    ensures { OnOk result ((inputs : List Input) → Adds (IsBroken inputs (Some (kind.Exec exec.now))) path_rules found.old.items found.new.items) }
{
    let dests = dests_of(alloc, exec.mounts.as_slice())?;
    let read = reads_paths(alloc, exec)?;
    let apart = dests_apart(alloc, &dests)?;
    add_unless(has_root(&dests), Rule::NoRoot, found)?;
    add_unless(read, Rule::BadPath, found)?;
    add_unless(apart, Rule::SameDest, found)?;
    Ok(())
}

// Returns whether the dests, the selectors and the cwd of the exec can be read as paths.
fn reads_paths(alloc: Global, exec: &ExecOp) -> Result<bool, Memory>
    ensures { IfOk result (λ read. IsTrue read ↔ ReadsPaths exec.now.mounts exec.now.meta) }
{
    let mounts = exec.mounts.as_slice();
    let dests = dests_of(alloc, mounts)?;
    if !all_there(&dests) {
        return Ok(false);
    }
    if !selectors_read(alloc, mounts)? {
        return Ok(false);
    }
    if !cwd_reads(alloc, &exec.meta)? {
        return Ok(false);
    }
    Ok(true)
}

// Adds the rules on the types, the inputs and the outputs of the mounts that are broken.
fn add_mounts(
    alloc: Global,
    inputs: &[Input],
    exec: &ExecOp,
    found: &mut Vec<Rule>,
) -> Result<(), Memory>
    ensures { OnOk result (Adds (IsBroken inputs.now (Some (kind.Exec exec.now))) mount_rules found.old.items found.new.items) }
{
    let mounts = exec.mounts.as_slice();
    let numbered = are_mount_outputs(alloc, mounts)?;
    add_unless(all_known(mounts), Rule::MountKind, found)?;
    add_unless(all_show(inputs.len(), mounts), Rule::MountInput, found)?;
    add_unless(numbered, Rule::MountOutput, found)?;
    Ok(())
}

// Adds the rules on cache mounts that are broken.
fn add_caches(
    alloc: Global,
    inputs: &[Input],
    exec: &ExecOp,
    found: &mut Vec<Rule>,
) -> Result<(), Memory>
    ensures { OnOk result (Adds (IsBroken inputs.now (Some (kind.Exec exec.now))) cache_rules found.old.items found.new.items) }
{
    let mounts = exec.mounts.as_slice();
    let apart = caches_apart(alloc, inputs, mounts)?;
    add_unless(all_have_options(mounts), Rule::NoCacheOpt, found)?;
    add_unless(all_shared(mounts), Rule::Sharing, found)?;
    add_unless(apart, Rule::CacheTwice, found)?;
    Ok(())
}

// Adds the rule `Script` if the exec has words that are no script.
fn add_script(alloc: Global, exec: &ExecOp, found: &mut Vec<Rule>) -> Result<(), Memory>
    ensures { OnOk result ((inputs : List Input) → Adds (IsBroken inputs (Some (kind.Exec exec.now))) (script_rules exec.now.meta) found.old.items
        found.new.items) }
{
    let Some(meta) = &exec.meta else {
        return Ok(());
    };
    if meta.args.is_empty() {
        return Ok(());
    }
    let fault = match read_script(alloc, meta.args.as_slice()) {
        Ok(_) => return Ok(()),
        Err(fault) => fault,
    };
    if is_memory(&fault) {
        return Err(Memory);
    }
    found.push(Rule::Script(fault))?;
    Ok(())
}

// Returns whether the fault is that memory was refused.
fn is_memory(fault: &ScriptFault) -> bool
    ensures { result ≡ is_memory fault.now }
{
    matches!(fault, ScriptFault::Memory)
}
