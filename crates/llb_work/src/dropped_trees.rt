//! Shared copies of the trees that a worker may drop while it holds the lock. As long as these copies exist, no such tree is
//! freed. The copies are dropped after the lock is released, so that freeing takes no time under the lock.

use crate::shared_board::Report;
use llb_board::{Board, Workspace};
use llb_tree::Tree;
use std::alloc::Global;

/// Shared copies of the trees of a workspace and of cache instances.
#[derive(Drop)]
pub(crate) struct Owners {
    workspace: Workspace,
    caches: Vec<Tree>,
}

impl Owners {
    /// Makes shared copies of the trees that a landing, step, settle or cancel of a worker may drop: those of the workspace in the reported outcome, or else of
    /// the workspace that the worker works on, and those of the worker's cache instances. Returns `None` if the worker runs nothing or memory is refused.
    pub(crate) fn of(alloc: Global, board: &Board, w: u32, report: &Report) -> Option<Owners> {
        let workspace = match report {
            Report::Outcome(outcome) => outcome.workspace().copy(),
            _ => board.workspace(w)?.copy(),
        };
        let workspace = workspace.ok()?;
        let mut caches = Vec::new(alloc);
        for place in board.places(w) {
            let tree = board.caches().instance(&place.key, place.number)?;
            caches.push(tree.copy().ok()?).ok()?;
        }
        Some(Owners { workspace, caches })
    }
}
