//! Makes boards from texts. A definition is written as its entries, in short form with `; ` between them, and local trees as their texts (both as in
//! `llb_samples`); the key of a cache as a `CacheRow`.

use llb_board::Board;
use llb_cache::{Caches, Key, Mode, Need, Seed};
use llb_loader::{Graph, Locals};
use llb_samples::{definition_of, entries_text, graph_in, graph_of, locals_named};
use llb_tree::Tree;
use llb_wire::{Bytes, Text};
use std::alloc::Global;
use std::process::Abort;

// The key of a cache: the key's ID, the key's mode and, if the key has a seed, which output of the first entry is the seed.
pub(crate) type CacheRow<'a> = (&'a str, Mode, Option<u32>);

/// Appends the assembler's text of the entries that are in `entries`, in short form (`llb_samples`) with `; ` between them.
pub(crate) fn push_entries(rt: &impl Abort, text: &mut String, entries: &str) {
    let entries = entries_text(*text.allocator(), entries).expect(rt, "memory");
    text.push_str(entries.as_str()).expect(rt, "memory");
}

/// Returns the definition whose entries are in `entries`, in short form (`llb_samples`) with `; ` between them.
pub(crate) fn definition_from(rt: &impl Abort, alloc: Global, entries: &str) -> Bytes {
    definition_of(alloc, entries).expect(rt, "a definition")
}

pub(crate) fn graph_from(rt: &impl Abort, alloc: Global, entries: &str) -> Graph {
    graph_of(alloc, entries).expect(rt, "a graph")
}

fn board_on(rt: &impl Abort, alloc: Global, graph: Graph, locals: Locals, workers: u32) -> Board {
    let board = Board::open(alloc, graph, locals, Caches::new(alloc), workers);
    board.ok().expect(rt, "a board")
}

// Returns a board over the definition that is assembled from a text, without local trees.
pub(crate) fn board_from(rt: &impl Abort, alloc: Global, text: &str, workers: u32) -> Board {
    let graph = graph_in(alloc, text).expect(rt, "a graph");
    board_on(rt, alloc, graph, Locals::new(alloc), workers)
}

// Returns local trees from a text: each tree follows a line with `== ` and its name.
pub(crate) fn locals_of(rt: &impl Abort, alloc: Global, given: &str) -> Locals {
    llb_samples::locals_of(alloc, given).expect(rt, "local trees")
}

pub(crate) fn board_of(
    rt: &impl Abort,
    alloc: Global,
    definition: &str,
    given: &str,
    workers: u32,
) -> Board {
    let graph = graph_from(rt, alloc, definition);
    board_on(rt, alloc, graph, locals_of(rt, alloc, given), workers)
}

/// Returns the board that the first line of a story describes. The line has the number of workers; then, if there are local trees, ` on ` and their name;
/// then `: ` and the entries of the definition.
pub(crate) fn board_in(rt: &impl Abort, alloc: Global, head: &str) -> Board {
    let (opened, definition) = head.split_once(": ").expect(rt, "a definition");
    let (workers, locals) = opened.split_once(" on ").unwrap_or((opened, ""));
    let workers = workers.parse::<u32>().ok().expect(rt, "a number");
    board_of(rt, alloc, definition, locals_named(locals), workers)
}

// The digest of the entry that makes `/a`. In each definition with a cache that has a seed, this entry is the first one.
pub(crate) const DIGEST_OF_A: &str =
    "sha256:17d299b0a332287e9d0f57a4a7f23e97dbf1203cd154f7157e30471c769cda1b";

fn seed_of(rt: &impl Abort, alloc: Global, index: u32) -> Seed {
    let digest = Text::from_str(alloc, DIGEST_OF_A).expect(rt, "memory");
    Seed { digest, index }
}

pub(crate) fn key_of(rt: &impl Abort, alloc: Global, row: &CacheRow<'_>) -> Key {
    let (id, mode, index) = *row;
    let id = Text::from_str(alloc, id).expect(rt, "memory");
    let seed = match index {
        Some(index) => Some(seed_of(rt, alloc, index)),
        None => None,
    };
    Key { id, seed, mode }
}

// Returns a `Need` for the key of each row. By each `Need`, a new instance of its key begins with the empty tree.
pub(crate) fn needs_of(rt: &impl Abort, alloc: Global, rows: &[CacheRow<'_>]) -> Vec<Need> {
    let mut needs = Vec::new(alloc);
    for row in rows {
        let key = key_of(rt, alloc, row);
        let tree = Tree::empty(alloc).expect(rt, "memory");
        needs.push(Need { key, tree }).expect(rt, "memory");
    }
    needs
}
