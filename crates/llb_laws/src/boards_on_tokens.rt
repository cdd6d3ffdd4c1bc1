//! Checks whether local trees with tokens stand for others, as the laws on tokens of `contents` ask, and opens boards on such trees.

ghost use Rattle.std.specs.Prelude.{◌≡◌, ◌↔◌, [], length, IsTrue, IfErr, IfOk, IfSome, None, Err, false};
ghost use Rattle.llb_board.specs.Opening.{open_memory, open_of};
ghost use Rattle.llb_model.specs.TwoCacheModels.{store_of};
ghost use Rattle.llb_laws.specs.TokenRuns.{with_locals};
ghost use Rattle.llb_laws.specs.TokenLists.{BoardStandsFor, HaveTokensOf, MayStand, OpensOnTokens, SourceStands, SourcesStand, StandsFor};
ghost use Rattle.llb_laws.specs.OtherContents.{AreSpelled};

use crate::contents::{board_serves_each_table, boards_stand_for_contents, records_are_handed_on};
use crate::token_byte_writers::writes_no_mark;
use crate::token_plan::by_value;
use crate::token_trees::trees_stand;
use crate::trees_with_names::locals_have_names;
use llb_board::{Board, OpenFault};
use llb_cache::Caches;
use llb_loader::{Graph, Locals, Vertex};
use llb_wire::{Bytes, Memory};
use std::alloc::Global;

// Returns whether the tree of a local source stands for the one that the other list has; `true` for a vertex that is no local source.
fn source_stands(
    contents: &[Bytes],
    by_value: bool,
    tokens: &Locals,
    locals: &Locals,
    vertex: &Vertex,
) -> Result<bool, Memory>
    ensures { IfOk result (λ is. IsTrue is ↔ SourceStands (StandsFor contents.now by_value) tokens.now locals.now vertex.now) }
{
    match vertex.local_name() {
        Some(name) => trees_stand(contents, by_value, tokens.get(name), locals.get(name)),
        None => Ok(true),
    }
}

// Returns whether the tree of each local source stands for the one that the other list has, by value where the vertex is marked.
fn sources_stand(
    graph: &Graph,
    contents: &[Bytes],
    marks: &[bool],
    tokens: &Locals,
    locals: &Locals,
) -> Result<bool, Memory>
    requires { length marks.now ≡ length graph.now.vertices }
    ensures { IfOk result (λ is. IsTrue is ↔ SourcesStand contents.now marks.now graph.now tokens.now locals.now) }
{
    let vertices = graph.vertices();
    for v in 0..vertices.len() {
        if !source_stands(contents, marks[v], tokens, locals, &vertices[v])? {
            return Ok(false);
        }
    }
    Ok(true)
}

/// Returns whether local trees with tokens stand for others, where token n is content n of a list. `true` says that a run on the first is the run on the
/// others: it gives the premises of `contents::records_are_handed_on` (`tokens`) for runs without caches at the opening, whatever a table has past the list.
/// Looks at each tree once. Fails with 5 `Memory` alone.
pub fn have_tokens(
    alloc: Global,
    graph: &Graph,
    contents: &[Bytes],
    tokens: &Locals,
    locals: &Locals,
) -> Result<bool, Memory>
    ensures { IfOk result (λ is. IsTrue is ↔ HaveTokensOf contents.now graph.now tokens.now locals.now (store_of []) (store_of [])) }
{
    locals_have_names(graph, tokens);
    let marks = by_value(alloc, graph)?;
    sources_stand(graph, contents, marks.as_slice(), tokens, locals)
}

// Returns whether a graph writes no byte 255, and local trees with tokens stand for others.
fn may_stand(
    alloc: Global,
    graph: &Graph,
    contents: &[Bytes],
    tokens: &Locals,
    locals: &Locals,
) -> Result<bool, Memory>
    ensures { IfOk result (λ is. IsTrue is ↔ MayStand contents.now graph.now tokens.now locals.now) }
{
    if !writes_no_mark(graph) {
        return Ok(false);
    }
    have_tokens(alloc, graph, contents, tokens, locals)
}

/// Opens a board on local trees with tokens, without caches, if they stand for others by a list of contents (`have_tokens`), and the graph writes no byte 255;
/// else returns `None`. After any events, a run on the tokens is the run on the contents, with each token replaced. Fails as `Board::open` does, or for want of
/// memory.
pub fn open_on_tokens(
    alloc: Global,
    graph: Graph,
    contents: &[Bytes],
    tokens: Locals,
    locals: &Locals,
    workers: u32,
) -> Result<Option<Board>, OpenFault>
    ensures some { IfOk result (λ made. IfSome made (λ board. OpensOnTokens contents.now graph tokens locals.now workers board)) }
    ensures none { IfOk result (λ made. made ≡ None → ¬ MayStand contents.now graph tokens locals.now) }
    ensures refused { IfErr result (λ e. open_memory e ≡ false → open_of (with_locals graph tokens) (record { rows = []; out = [] }) workers ≡ Err e) }
{
    let caches = Caches::new(alloc);
    let Ok(stands) = may_stand(alloc, &graph, contents, &tokens, locals) else {
        return Err(OpenFault::Memory(graph, tokens, caches));
    };
    if !stands {
        return Ok(None);
    }
    records_are_handed_on(&graph);
    match Board::open(alloc, graph, tokens, caches, workers) {
        Ok(board) => Ok(Some(board)),
        Err(fault) => Err(fault),
    }
}

/// Returns whether a board on local trees with tokens stands for a board on others: whether these trees stand for the others by a list of contents
/// (`have_tokens`), and the graph writes no byte 255. `true` says so of a board that was opened on these trees, without caches, whatever has happened on it.
/// Fails with 5 `Memory` alone.
pub fn stands_for_contents(
    alloc: Global,
    board: &Board,
    contents: &[Bytes],
    tokens: &Locals,
    locals: &Locals,
) -> Result<bool, Memory>
    ensures yes { IfOk result (λ is. IsTrue is → BoardStandsFor contents.now tokens.now locals.now board.now) }
    ensures no { IfOk result (λ is. is ≡ false → ¬ MayStand contents.now board.now.build.graph tokens.now locals.now) }
{
    boards_stand_for_contents(board);
    may_stand(alloc, board.graph(), contents, tokens, locals)
}

/// Returns whether local trees are what those with tokens are if each token n is replaced by content n of a list, in all sources alike. If the trees with
/// tokens stood for some contents (`have_tokens`), this is all that the law of kept runs asks of other contents (`contents::board_serves_each_table`). Looks at
/// each tree once. Fails with 5 `Memory` alone.
pub fn are_spelled(
    graph: &Graph,
    contents: &[Bytes],
    tokens: &Locals,
    locals: &Locals,
) -> Result<bool, Memory>
    ensures { IfOk result (λ is. IsTrue is ↔ AreSpelled contents.now graph.now tokens.now locals.now) }
{
    for vertex in graph.vertices() {
        if !source_stands(contents, false, tokens, locals, vertex)? {
            return Ok(false);
        }
    }
    Ok(true)
}

/// Returns whether a board serves other contents: whether local trees with tokens stood for some trees by a list of contents (`have_tokens`), in a graph that
/// writes no byte 255, and `changed` is what they are by another list (`are_spelled`). `true` says, of a board that was opened on these trees, without caches,
/// that it stands for a board on `changed`, whatever has happened on it: the result that was made of the tokens is, with each token replaced by its content of
/// the other list, what a run on `changed` makes by the same events. Fails with 5 `Memory` alone.
pub fn serves_other_contents(
    alloc: Global,
    board: &Board,
    tokens: &Locals,
    contents: &[Bytes],
    locals: &Locals,
    others: &[Bytes],
    changed: &Locals,
) -> Result<bool, Memory>
    ensures yes { IfOk result (λ is. IsTrue is → BoardStandsFor others.now tokens.now changed.now board.now) }
    ensures no { IfOk result (λ is. is ≡ false
        → ¬ (MayStand contents.now board.now.build.graph tokens.now locals.now × AreSpelled others.now board.now.build.graph tokens.now changed.now)) }
{
    board_serves_each_table(board);
    let graph = board.graph();
    if !may_stand(alloc, graph, contents, tokens, locals)? {
        return Ok(false);
    }
    are_spelled(graph, others, tokens, changed)
}
