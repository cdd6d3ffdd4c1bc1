//! The workspace: what a program works on. A workspace borrows nothing. At first it has the trees of the vertex's inputs, or a
//! source's local tree; micro-steps change the workspace; at the end the outputs are taken from the workspace. Actions are done by
//! `llb_fileop`, micro-steps of merges by `llb_merge`, commands by the module `filling`.

ghost use Rattle.std.specs.Prelude.{◌≡◌, ◌<◌, List, length, map, option_map, replicate, unwrap_or, Some, None, Result, IfOk, OnOk, OnErr};
ghost use Rattle.std.specs.List.{All};
ghost use Rattle.llb_tree.specs.Tree.{TreeMap, empty_tree};
ghost use Rattle.llb_merge.specs.Laying.{lay};
ghost use Rattle.llb_fileop.specs.CallResults.{Gives};
ghost use Rattle.llb_fileop.specs.declared.fault.ActFault.{ActFault};
ghost use Rattle.llb_loader.specs.Graph.{IsVertexOf};
ghost use Rattle.llb_model.specs.Caches.{Distinct};
ghost use Rattle.llb_model.specs.Program.{program_of, workspace_on, local_tree, mount_of, needs_of, trees_in, base_in, with_tree, with_result, tried};
ghost use Rattle.llb_model.specs.Program.{tree_fault_number, fault_number, is_and, all_and, is_run, exit_of, last_of, lay_on, run_on, step_on, outputs_of};
ghost use Rattle.llb_execution.specs.SavedWorkspaces.{put_back, Results, Laid};
ghost use Rattle.llb_execution.specs.SavedWorkspaces as saves;
ghost use Rattle.llb_execution.specs.ModelValues.{step_in, own_of, work_with, left_with, is_skipped, mounts_in, shown_in};

use crate::commands_on_caches::run_filled;
use crate::exec_mounts::{input_tree, view_of};
use crate::micro_step::MicroStep;
use crate::outputs::outputs_of;
use llb_applet::{Join, Joined, Setting};
use llb_events::VertexFault;
use llb_fileop::{ActFault, act};
use llb_loader::{Locals, Vertex};
use llb_merge::lay_over;
use llb_mount::View as Mounts;
use llb_ops::{Action, Kind};
use llb_tree::{Tree, TreeFault};
use llb_wire::Memory;
use std::alloc::Global;
use std::marker::Model;

/// What a program works on: for a source its local tree; for a file op the trees of its inputs and the results so far; for a
/// merge the trees of its inputs and the result so far; for an exec its mounts (each mount that shows a cache has the empty tree
/// here) and the status of the last command that ran.
pub struct Workspace {
    pub(crate) own: WorkState,
}

impl Drop for Workspace {
    fn drop(self) {
        let Workspace { own: _ } = self;
    }
}

// The data of a workspace. Source: its local tree. File op: the trees of its inputs, and the results so far. Merge: the trees of its inputs, and the
// result so far. Exec: its mounts, the numbers of the mounts that show caches, and the status of the last command that ran.
#[derive(Drop)]
pub(crate) enum WorkState {
    Local(Tree),
    Files(Vec<Tree>, Vec<Tree>),
    Layers(Vec<Tree>, Tree),
    Mounted(Mounts, Vec<u32>, u32),
}

impl Model for Workspace {
    ghost use Rattle.std.specs.Coded.{codes};
    ghost use Rattle.llb_tree.specs.CodedTrees.{coded_tree};
    ghost use Rattle.llb_model.specs.Program as model;
    ghost use Rattle.llb_execution.specs.ModelValues.{own_of};

    ghost Value = { model.Workspace };

    ghost coded = { Prim.hlevel (codes, coded_tree) };

    ghost view = { λ v. own_of v.own };
}

impl Workspace {
    /// Makes the workspace of a vertex before its first micro-step. `inputs` has the trees of the vertex's inputs; `caches` must have the numbers of the
    /// vertex's cache mounts, in ascending order. Fails with 5 `Memory` alone.
    pub fn on(
        alloc: Global,
        locals: &Locals,
        vertex: &Vertex,
        inputs: Vec<Tree>,
        caches: Vec<u32>,
    ) -> Result<Workspace, Memory>
        requires kind { IsVertexOf vertex.now vertex.now.op.kind }
        requires caches { caches.items ≡ map mount_of (needs_of vertex.now) }
        ensures { IfOk result (λ v. v ≡ workspace_on locals.now vertex.now vertex.now.op.kind inputs.items) }
    {
        let own = own_on(alloc, locals, vertex, inputs, caches)?;
        Ok(Workspace { own })
    }

    /// Copies the workspace; the copy shares the trees with the workspace. Fails with 5 `Memory` alone.
    pub fn copy(&self) -> Result<Workspace, Memory>
        ensures { IfOk result (λ v. v ≡ self.now) }
    {
        let own = copy_of(&self.own)?;
        Ok(Workspace { own })
    }

    /// Returns the status of the last command that ran; 0 before a command has run. Does not allocate.
    pub fn last(&self) -> u32
        ensures { result ≡ last_of self.now }
    {
        match &self.own {
            WorkState::Mounted(_, _, last) => *last,
            _ => 0,
        }
    }

    /// Returns whether the micro-step is a command that is skipped, by its join and the last status. A skipped command changes nothing. Does not allocate.
    pub fn skips(&self, step: MicroStep<'_>) -> bool
        ensures { result ≡ is_skipped (step_in step.entry) self.now }
    {
        match step {
            MicroStep::Run(_, command, _) => !runs_after(command.join, self.last()),
            _ => false,
        }
    }

    /// Does micro-step `k`, and returns the fault of the micro-step, if there is one; the fault has the number `k` in it. `trees` has the trees of the cache
    /// instances, in the order of the mounts that show these instances; a command can change the trees. If there is a fault, the workspace and `trees` are as
    /// before, except for the last status. Fails with 5 `Memory` alone; then nothing is changed.
    pub fn step(
        &mut self,
        alloc: Global,
        k: u32,
        step: MicroStep<'_>,
        trees: &mut Vec<Tree>,
    ) -> Result<Option<VertexFault>, Memory>
        requires apart { Distinct (shown_in self.old) }
        requires within { All (λ n. n < mounts_in self.old) (shown_in self.old) }
        requires count { length trees.old.items ≡ length (shown_in self.old) }
        ensures left { IfOk result (λ fault. record { work = work_with self.new trees.new.items; fault = fault }
            ≡ step_on k (Some (step_in step.entry)) (work_with self.old trees.old.items)) }
        ensures mounts { mounts_in self.new ≡ mounts_in self.old }
        ensures shown { shown_in self.new ≡ shown_in self.old }
        ensures count { length trees.new.items ≡ length trees.old.items }
        ensures err { OnErr result ((self.new ≡ self.old) × (trees.new.items ≡ trees.old.items)) }
    {
        match step {
            MicroStep::ReadLocal => Ok(None),
            MicroStep::Act(action) => {
                let second = self.tree(action.secondary_input);
                let acted = match self.tree(action.input) {
                    Some(base) => act(alloc, action, base, second),
                    None => act(alloc, action, &empty(alloc)?, second),
                };
                Ok(self.put_result(k, acted)?)
            }
            MicroStep::LayInput(input) => {
                self.lay(alloc, input)?;
                Ok(None)
            }
            MicroStep::Run(setting, command, later) => {
                Ok(self.run(k, setting, command, later, trees)?)
            }
        }
    }

    /// Returns the outputs of the vertex, from its workspace after all micro-steps. `outputs` must have an empty tree for each
    /// output (the caller makes them by `empty_trees`); the outputs replace these trees. Does not allocate.
    pub fn into_outputs(self, outputs: Vec<Tree>, vertex: &Vertex) -> Vec<Tree>
        requires { outputs.items ≡ replicate vertex.now.outputs empty_tree }
        ensures { result.items ≡ outputs_of (program_of vertex.now) self }
    {
        let Workspace { own } = self;
        outputs_of(own, outputs, vertex)
    }

    // Appends to the results the tree that action `k` made; if the action failed, returns the action's fault, with the number `k` in it.
    fn put_result(
        &mut self,
        k: u32,
        acted: Result<Tree, ActFault>,
    ) -> Result<Option<VertexFault>, Memory>
        ensures left { IfOk result (λ fault. (rule : Result TreeMap ActFault) (trees : List TreeMap) → Gives (λ t. t) acted rule
            → left_with self.new trees fault ≡ tried (work_with self.old trees) (with_result k self.old rule)) }
        ensures err { OnErr result (self.new ≡ self.old) }
    {
        match acted {
            Ok(tree) => {
                self.push(tree)?;
                Ok(None)
            }
            Err(ActFault::Memory) => Err(Memory),
            Err(fault) => Ok(Some(VertexFault::Action(k, number(fault)))),
        }
    }

    /// Returns the tree that an action of a file op names by this number: an input, or an earlier result. `None` means the empty tree: for -1, and if there is
    /// no tree with this number. Does not allocate.
    pub fn tree(&self, number: i64) -> Option<&Tree>
        ensures { unwrap_or (option_map (λ t. t.now) result) empty_tree ≡ base_in number (trees_in self.now) }
    {
        if number < 0 {
            return None;
        }
        let at = number as usize;
        match &self.own {
            WorkState::Local(_) => None,
            WorkState::Mounted(_, _, _) => None,
            WorkState::Layers(inputs, _) => inputs.get(at),
            WorkState::Files(inputs, results) => {
                if at < inputs.len() {
                    return inputs.get(at);
                }
                results.get(at - inputs.len())
            }
        }
    }

    // Appends a result of a file op.
    fn push(&mut self, tree: Tree) -> Result<(), Memory>
        ensures ok { OnOk result (self.new ≡ with_tree self.old tree) }
        ensures err { OnErr result (self.new ≡ self.old) }
    {
        match &mut self.own {
            WorkState::Files(_, results) => {
                results.push(tree)?;
                Ok(())
            }
            // No program of a vertex gets here: only a file op has actions.
            _ => Ok(()),
        }
    }

    // Lays the input with this number over a merge's result so far.
    fn lay(&mut self, alloc: Global, input: i64) -> Result<(), Memory>
        ensures ok { OnOk result (self.new ≡ lay_on input self.old) }
        ensures err { OnErr result (self.new ≡ self.old) }
    {
        match &mut self.own {
            WorkState::Layers(inputs, laid) => lay_input(alloc, laid, inputs, input),
            // This case does not occur in the program of a vertex: only a merge lays inputs.
            _ => Ok(()),
        }
    }

    // Keeps only the first `count` results of a file op.
    pub(crate) fn keep_results(&mut self, count: usize)
        ensures { self.new ≡ put_back (Results count) self.old }
    {
        match &mut self.own {
            WorkState::Files(_, results) => results.truncate(count),
            _ => {}
        }
    }

    // Replaces a merge's result so far.
    pub(crate) fn put_laid(&mut self, tree: Tree)
        ensures { self.new ≡ put_back (Laid tree) self.old }
    {
        match &mut self.own {
            WorkState::Layers(_, laid) => *laid = tree,
            _ => {}
        }
    }

    // Replaces the mounts of an exec, and the status of the last command that ran.
    pub(crate) fn put_mounts(&mut self, mounts: Mounts, last: u32)
        ensures { self.new ≡ put_back (saves.Mounts mounts last) self.old }
    {
        match &mut self.own {
            WorkState::Mounted(shown, _, status) => {
                *shown = mounts;
                *status = last;
            }
            _ => {}
        }
    }

    // Runs or skips command `k` of an exec, as its join and the last status demand. While the command runs, the cache mounts have the trees `trees`.
    // Returns the exec's fault: the command's status, if this status is not 0 and no later command may run.
    fn run(
        &mut self,
        k: u32,
        setting: &Setting,
        command: &Joined,
        later: &[Joined],
        trees: &mut Vec<Tree>,
    ) -> Result<Option<VertexFault>, Memory>
        requires apart { Distinct (shown_in self.old) }
        requires within { All (λ n. n < mounts_in self.old) (shown_in self.old) }
        requires count { length trees.old.items ≡ length (shown_in self.old) }
        ensures left { IfOk result (λ fault. left_with self.new trees.new.items fault
            ≡ run_on k setting.now command.now (all_and later.now) self.old trees.old.items) }
        ensures err { OnErr result ((self.new ≡ self.old) × (trees.new.items ≡ trees.old.items)) }
    {
        match &mut self.own {
            WorkState::Mounted(mounts, caches, last) => {
                if !runs_after(command.join, *last) {
                    return Ok(None);
                }
                let alloc = *trees.allocator();
                let status = run_filled(alloc, &command.command, setting, mounts, caches, trees)?;
                *last = status;
                Ok(exit_of(k, status, later))
            }
            // This case does not occur in the program of a vertex: only an exec has commands.
            _ => Ok(None),
        }
    }
}

// Copies the data of a workspace; the copy shares the trees with the workspace.
fn copy_of(own: &WorkState) -> Result<WorkState, Memory>
    ensures { IfOk result (λ o. own_of o ≡ own_of own.now) }
{
    match own {
        WorkState::Local(tree) => Ok(WorkState::Local(tree.copy()?)),
        WorkState::Files(inputs, results) => {
            let alloc = *inputs.allocator();
            Ok(WorkState::Files(tree_copies(alloc, inputs)?, tree_copies(alloc, results)?))
        }
        WorkState::Layers(inputs, laid) => {
            let alloc = *inputs.allocator();
            Ok(WorkState::Layers(tree_copies(alloc, inputs)?, laid.copy()?))
        }
        WorkState::Mounted(mounts, numbers, last) => {
            Ok(WorkState::Mounted(mounts.copy()?, numbers.clone()?, *last))
        }
    }
}

// Copies a list of trees; the copies share memory with the trees.
pub(crate) fn tree_copies(alloc: Global, trees: &[Tree]) -> Result<Vec<Tree>, Memory>
    ensures { IfOk result (λ v. v.items ≡ trees.now) }
{
    let mut copies = Vec::new(alloc);
    for tree in trees {
        copies.push(tree.copy()?)?;
    }
    Ok(copies)
}

// Makes the data of a vertex's workspace before the first micro-step.
fn own_on(
    alloc: Global,
    locals: &Locals,
    vertex: &Vertex,
    inputs: Vec<Tree>,
    caches: Vec<u32>,
) -> Result<WorkState, Memory>
    requires kind { IsVertexOf vertex.now vertex.now.op.kind }
    requires caches { caches.items ≡ map mount_of (needs_of vertex.now) }
    ensures { IfOk result (λ own. own_of own ≡ workspace_on locals.now vertex.now vertex.now.op.kind inputs.items) }
{
    match &vertex.op.kind {
        Some(Kind::Source(_)) => Ok(WorkState::Local(local_tree(alloc, locals, vertex)?)),
        Some(Kind::Merge(_)) => Ok(WorkState::Layers(inputs, Tree::empty(alloc)?)),
        Some(Kind::Exec(exec)) => {
            let mounts = view_of(alloc, inputs.as_slice(), exec.get().mounts.as_slice())?;
            Ok(WorkState::Mounted(mounts, caches, 0))
        }
        _ => Ok(WorkState::Files(inputs, Vec::new(alloc))),
    }
}

// Copies the local tree of a source; returns the empty tree if no tree is given for the source.
fn local_tree(alloc: Global, locals: &Locals, vertex: &Vertex) -> Result<Tree, Memory>
    ensures { IfOk result (λ t. t ≡ local_tree locals.now vertex.now) }
{
    let name = vertex.local_name().unwrap_or("");
    match locals.get(name) {
        Some(tree) => Ok(tree.copy()?),
        None => Ok(Tree::empty(alloc)?),
    }
}

fn empty(alloc: Global) -> Result<Tree, Memory>
    ensures { IfOk result (λ t. t ≡ empty_tree) }
{
    Ok(Tree::empty(alloc)?)
}

// Returns the number of an action's fault; for 51 `File`, whose argument is a tree's fault, the number of that fault.
fn number(fault: ActFault) -> u32
    ensures { result ≡ fault_number fault }
{
    match fault {
        ActFault::File(fault) => tree_number(fault),
        ActFault::BadPattern => 52,
        ActFault::Memory => 53,
    }
}

// Returns the number of a tree's fault.
fn tree_number(fault: TreeFault) -> u32
    ensures { result ≡ tree_fault_number fault }
{
    match fault {
        TreeFault::NotFound => 21,
        TreeFault::NotDir => 22,
        TreeFault::IsDir => 23,
        TreeFault::Conflict => 24,
        TreeFault::Root => 25,
        TreeFault::BadName => 26,
        TreeFault::Memory => 27,
    }
}

// Lays the input with this number over the tree `laid`; the number -1 means the empty tree.
fn lay_input(alloc: Global, laid: &mut Tree, inputs: &[Tree], input: i64) -> Result<(), Memory>
    ensures ok { OnOk result (laid.new ≡ lay laid.old (base_in input inputs.now)) }
    ensures err { OnErr result (laid.new ≡ laid.old) }
{
    match input_tree(inputs, input) {
        Some(upper) => lay_over(laid, upper)?,
        None => lay_over(laid, &Tree::empty(alloc)?)?,
    }
    Ok(())
}

// Returns whether a command with this join runs, given the status of the last command that ran.
fn runs_after(join: Join, last: u32) -> bool
    ensures { result ≡ is_run join last }
{
    match join {
        Join::Then => true,
        Join::And => last == 0,
        Join::Or => last != 0,
    }
}

fn is_and(join: Join) -> bool
    ensures { result ≡ is_and join }
{
    match join {
        Join::And => true,
        _ => false,
    }
}

// Returns whether each of these commands is joined by `&&`.
fn are_ands(commands: &[Joined]) -> bool
    ensures { result ≡ all_and commands.now }
{
    for command in commands {
        if !is_and(command.join) {
            return false;
        }
    }
    true
}

// Returns the exec's fault after a command: the command's status, if this status is not 0 and no later command may run. Later commands are looked at only if
// the status is not 0, and only up to the first that is not joined by `&&`. Of the commands that are looked at, all but the last are skipped afterwards. So no
// command of a script is looked at twice.
fn exit_of(command: u32, status: u32, later: &[Joined]) -> Option<VertexFault>
    ensures { result ≡ exit_of command (all_and later.now) status }
{
    if status == 0 {
        return None;
    }
    if are_ands(later) {
        return Some(VertexFault::Exit(command, status));
    }
    None
}
