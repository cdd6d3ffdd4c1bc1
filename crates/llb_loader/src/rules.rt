//! Finds the first rule that an op breaks. Each kind of op has its own rules; the definition `rules_on` lists all rules in the order in which they are checked.

ghost use Rattle.std.specs.Prelude.{◌↔◌, Some, IfOk, MatchOption, IsTrue, List};
ghost use Rattle.llb_ops.specs.declared.op.Input.{Input};
ghost use Rattle.std.specs.List.{All};
ghost use Rattle.llb_ops.specs.declared.op.Kind.TheVariants as kind;
ghost use Rattle.llb_loader.specs.Rules.{IsInput, MeetsRules, BreaksFirst, rules_on};
ghost use Rattle.llb_loader.specs.RulesByKind.{IsFirstBroken, merge_rules, source_rules};

use crate::exec_rules::broken_in_exec;
use crate::fault::Rule;
use crate::file_rules::broken_in_file;
use crate::indices::is_input;
use llb_ops::{Input, Kind, MergeInput, MergeOp, Op, SourceOp};
use llb_wire::Memory;
use std::alloc::Global;

/// Returns the first rule that the op breaks; `None` if it meets all rules.
pub(crate) fn broken_rule(alloc: Global, op: &Op) -> Result<Option<Rule>, Memory>
    ensures { IfOk result (λ broken. MatchOption broken (MeetsRules op.now) (BreaksFirst op.now)) }
{
    let Some(kind) = &op.kind else {
        return Ok(Some(Rule::NoKind));
    };
    broken_in(alloc, op.inputs.as_slice(), kind)
}

// Returns the first rule that an op of this kind with these inputs breaks.
fn broken_in(alloc: Global, inputs: &[Input], kind: &Kind) -> Result<Option<Rule>, Memory>
    ensures { IfOk result (IsFirstBroken inputs.now (Some kind.now) (rules_on (Some kind.now))) }
{
    match kind {
        Kind::Source(source) => Ok(broken_in_source(source.get())),
        Kind::File(file) => Ok(broken_in_file(alloc, inputs, file)?),
        Kind::Exec(exec) => broken_in_exec(alloc, inputs, exec.get()),
        Kind::Merge(merge) => Ok(broken_in_merge(inputs, merge)),
        Kind::Build(_) => Ok(None),
        Kind::Diff(_) => Ok(None),
    }
}

// Returns the first rule on sources that the source breaks.
fn broken_in_source(source: &SourceOp) -> Option<Rule>
    ensures { (inputs : List Input) → IsFirstBroken inputs (Some (kind.Source source.now)) source_rules result }
{
    if source.identifier.as_str().as_bytes() == b"local://".as_slice() {
        return Some(Rule::LocalName);
    }
    None
}

// Returns the first rule on merges that the merge with these inputs breaks.
fn broken_in_merge(inputs: &[Input], merge: &MergeOp) -> Option<Rule>
    ensures { IsFirstBroken inputs.now (Some (kind.Merge merge.now)) merge_rules result }
{
    if !all_merged(inputs.len(), merge.inputs.as_slice()) {
        return Some(Rule::MergeInput);
    }
    None
}

/// Returns whether each input of a merge is one of `count` inputs, or -1.
pub fn all_merged(count: usize, merged: &[MergeInput]) -> bool
    ensures { IsTrue result ↔ All (λ m. IsInput count m.input) merged.now }
{
    for input in merged {
        if !is_input(count, input.input) {
            return false;
        }
    }
    true
}
