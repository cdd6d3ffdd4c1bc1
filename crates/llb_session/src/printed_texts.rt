//! The texts that a session prints: statuses of vertices, lines of the record, trees, the work of workers, caches, and refusals.

ghost use Rattle.std.specs.Prelude.{◌≡◌, ◌++◌, ◌-◌, ◌+◌, codes, length, option_map, IfOk, IfErr, string_bytes};
ghost use Rattle.llb_session.specs.PrintedTexts.{status_line, status_lines, record_line, record_lines, tree_lines, back_line};
ghost use Rattle.llb_session.specs.PrintedTexts.{role_line, part_lines, work_lines, seed_text, mode_word, key_line, key_lines};
ghost use Rattle.llb_execution.specs.WorkspaceTrees.{role_in, roles_of};
ghost use Rattle.llb_stepper.specs.declared.fault.StepperFault.TheVariants as refusal;

use llb_board::{Board, Status, Workspace};
use llb_cache::{Key, Mode, Seed};
use llb_execution::Part;
use llb_stepper::{Stepper, StepperFault};
use llb_tree::Tree;
use llb_treetext::{print_tree, push_path};
use llb_wire::Over;
use std::alloc::{AllocError, Global};

// Appends the line with the number and the status of a vertex.
fn push_status(text: &mut String, v: u32, status: Status) -> Result<(), StepperFault>
    ensures line { IfOk result (λ _. string_bytes text.new ≡ string_bytes text.old ++ status_line v status) }
    ensures memory { IfErr result (λ e. e ≡ refusal.Memory) }
{
    match status {
        Status::Waiting => writeln!(text, "{v} waiting")?,
        Status::Ready => writeln!(text, "{v} ready")?,
        Status::Blocked => writeln!(text, "{v} blocked")?,
        Status::Running(w) => writeln!(text, "{v} running {w}")?,
        Status::Done => writeln!(text, "{v} done")?,
        Status::Failed(fault) => writeln!(text, "{v} failed {fault}")?,
    }
    Ok(())
}

/// Returns a line for each vertex, by number.
#[tactic(auto, unfolding(crate::specs::PrintedTexts::status_lines))]
pub(crate) fn status_text(alloc: Global, board: &Board) -> Result<String, StepperFault>
    ensures lines { IfOk result (λ s. string_bytes s ≡ status_lines board.now (length board.now.build.graph.vertices)) }
    ensures memory { IfErr result (λ e. e ≡ refusal.Memory) }
{
    board.is_graph();
    let mut text = String::new(alloc);
    for v in 0..board.graph().vertices().len() as u32 {
        if let Some(status) = board.status(v) {
            push_status(&mut text, v, status)?;
        }
    }
    Ok(text)
}

// Appends the line of event `number` of the record; appends nothing if `Stepper::record_line` returns no line for this number.
fn push_record(text: &mut String, stepper: &Stepper, number: u64) -> Result<(), StepperFault>
    ensures line { IfOk result (λ _. string_bytes text.new ≡ string_bytes text.old ++ record_line stepper.now number) }
    ensures memory { IfErr result (λ e. e ≡ refusal.Memory) }
{
    if let Some(line) = stepper.record_line(number)? {
        writeln!(text, "{line}")?;
    }
    Ok(())
}

/// Returns the line of event `number` of the record, counted from 1. Returns an empty text for 0, for a number past the end of the record,
/// and for an event that the board had when the stepper was made.
pub(crate) fn line_text(
    alloc: Global,
    stepper: &Stepper,
    number: u64,
) -> Result<String, StepperFault>
    ensures line { IfOk result (λ s. string_bytes s ≡ record_line stepper.now number) }
    ensures memory { IfErr result (λ e. e ≡ refusal.Memory) }
{
    let mut text = String::new(alloc);
    push_record(&mut text, stepper, number)?;
    Ok(text)
}

/// Returns the lines of the record after the first `from` events, up to and with the line of event `to`.
#[tactic(auto, unfolding(crate::specs::PrintedTexts::record_lines))]
pub(crate) fn record_text(
    alloc: Global,
    stepper: &Stepper,
    from: u64,
    to: u64,
) -> Result<String, StepperFault>
    ensures lines { IfOk result (λ s. string_bytes s ≡ record_lines stepper.now from (to - from)) }
    ensures memory { IfErr result (λ e. e ≡ refusal.Memory) }
{
    let mut text = String::new(alloc);
    for number in from..to {
        push_record(&mut text, stepper, number + 1)?;
    }
    Ok(text)
}

/// Returns the text of a tree; the line `none` if there is no tree.
pub(crate) fn tree_text(alloc: Global, tree: Option<&Tree>) -> Result<Vec<u8>, StepperFault>
    ensures lines { IfOk result (λ v. v.items ≡ tree_lines (option_map (λ t. t.now) tree.entry)) }
    ensures memory { IfErr result (λ e. e ≡ refusal.Memory) }
{
    let mut text = Vec::new(alloc);
    match tree {
        Some(tree) => {
            if print_tree(alloc, tree, &mut Over::new(&mut text)).is_err() {
                return Err(StepperFault::Memory);
            }
        }
        None => text.extend_from_slice(b"none\n")?,
    }
    Ok(text)
}

// Appends the line for tree `i` of the trees that a worker works on.
fn push_part(text: &mut String, i: usize, part: Part<'_>) -> Result<(), StepperFault>
    ensures line { IfOk result (λ _. string_bytes text.new ≡ string_bytes text.old ++ role_line i (role_in part.entry)) }
    ensures memory { IfErr result (λ e. e ≡ refusal.Memory) }
{
    match part {
        Part::Local => writeln!(text, "{i} local")?,
        Part::Input => writeln!(text, "{i} input")?,
        Part::ResultOf(a) => writeln!(text, "{i} result {a}")?,
        Part::Laid => writeln!(text, "{i} laid")?,
        Part::MountAt(dest) => {
            write!(text, "{i} mount ")?;
            push_path(text, dest)?;
            text.push_str("\n")?;
        }
    }
    Ok(())
}

// Returns the line `none`.
fn none_text(alloc: Global) -> Result<String, StepperFault>
    ensures lines { IfOk result (λ s. string_bytes s ≡ codes "none\n") }
    ensures memory { IfErr result (λ e. e ≡ refusal.Memory) }
{
    let mut text = String::new(alloc);
    text.push_str("none\n")?;
    Ok(text)
}

// Returns a line for each tree of a workspace, or the line `none` if the workspace has no tree.
#[tactic(auto, unfolding(crate::specs::PrintedTexts::role_lines))]
fn parts_text(alloc: Global, workspace: &Workspace) -> Result<String, StepperFault>
    ensures lines { IfOk result (λ s. string_bytes s ≡ part_lines (roles_of workspace.now)) }
    ensures memory { IfErr result (λ e. e ≡ refusal.Memory) }
{
    if workspace.parts() == 0 {
        return none_text(alloc);
    }
    let mut text = String::new(alloc);
    for i in 0..workspace.parts() {
        if let Some(part) = workspace.part(i) {
            push_part(&mut text, i, part)?;
        }
    }
    Ok(text)
}

/// Returns a line for each tree that a worker works on, or the line `none` if there are none.
pub(crate) fn work_text(
    alloc: Global,
    workspace: Option<&Workspace>,
) -> Result<String, StepperFault>
    ensures lines { IfOk result (λ s. string_bytes s ≡ work_lines (option_map (λ v. v.now) workspace.entry)) }
    ensures memory { IfErr result (λ e. e ≡ refusal.Memory) }
{
    match workspace {
        Some(workspace) => parts_text(alloc, workspace),
        None => none_text(alloc),
    }
}

// Returns the word for a mode.
fn mode_word(mode: Mode) -> &'static str
    ensures { result.now ≡ mode_word mode }
{
    match mode {
        Mode::Shared => "shared",
        Mode::Private => "private",
        Mode::Locked => "locked",
    }
}

// Appends the text of a seed.
fn push_seed(text: &mut String, seed: &Option<Seed>) -> Result<(), StepperFault>
    ensures line { IfOk result (λ _. string_bytes text.new ≡ string_bytes text.old ++ seed_text seed.now) }
    ensures memory { IfErr result (λ e. e ≡ refusal.Memory) }
{
    match seed {
        Some(seed) => {
            let digest = &seed.digest;
            let index = seed.index;
            write!(text, "{digest}.{index}")?;
        }
        None => text.push_str("-")?,
    }
    Ok(())
}

// Appends the line for key `k`, which has `n` instances.
fn push_key(text: &mut String, k: usize, key: &Key, n: u32) -> Result<(), StepperFault>
    ensures line { IfOk result (λ _. string_bytes text.new ≡ string_bytes text.old ++ key_line k key.now n) }
    ensures memory { IfErr result (λ e. e ≡ refusal.Memory) }
{
    let mode = mode_word(key.mode);
    write!(text, "{k} {mode} {n} ")?;
    push_seed(text, &key.seed)?;
    writeln!(text, " {key}")?;
    Ok(())
}

/// Returns a line for each key of the caches.
#[tactic(auto, unfolding(crate::specs::PrintedTexts::key_lines))]
pub(crate) fn caches_text(alloc: Global, board: &Board) -> Result<String, StepperFault>
    ensures lines { IfOk result (λ s. string_bytes s ≡ key_lines board.now.rows (length board.now.rows)) }
    ensures memory { IfErr result (λ e. e ≡ refusal.Memory) }
{
    let caches = board.caches();
    let mut text = String::new(alloc);
    for k in 0..caches.keys() {
        if let Some(key) = caches.key(k) {
            push_key(&mut text, k, key, caches.instances(key))?;
        }
    }
    Ok(text)
}

/// Returns the line that is printed after an event was taken back: `back` and how many events the record still has.
pub(crate) fn back_line(alloc: Global, left: usize) -> Result<String, AllocError>
    ensures { IfOk result (λ s. string_bytes s ≡ back_line left) }
{
    format!(in alloc; "back {left}\n")
}
