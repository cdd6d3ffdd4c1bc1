//! Laws of vertices with the same digest, in two graphs or on two boards; of vertices that a matching relates; and of definitions with the same last entry. If
//! you read only one contract, read that of `one_digest_one_outcome`. Its premise is that entries of the two definitions with the same digest are equal.
//! `parts_do_not_collide` says for which definitions this always holds.

ghost use Rattle.llb_laws.specs.Digests.{LoadWithoutCollision, PartsDoNotCollide, ShareOutcomes, DependOnSources};
ghost use Rattle.llb_laws.specs.BoardOutcomes.{SettleAlike, MatchedSettleAlike, KeptOutputsStandIn, RenamedSettleAlike, RewritingSettlesAlike};
ghost use Rattle.llb_laws.specs.BoardOutcomes.{PartSettlesAlike};
ghost use Rattle.llb_laws.specs.Jobs.{ShareJobs, WorkedElsewhereLands};
ghost use Rattle.llb_laws.specs.Matchings.{MatchedEndAlike};
ghost use Rattle.llb_laws.specs.RenamedAndKeptSources.{RenamedEndAlike, KeptStandIn};
ghost use Rattle.llb_laws.specs.Keys.{KeysShareOutcomes, KeptOutputsServe};
ghost use Rattle.llb_laws.specs.Definitions.{EndInOneEntry, ShareResults, PartSharesResult, OrderSharesResult, RewritingSharesResult};
ghost use Rattle.llb_laws.specs.DefinitionParts.{PartIsNotRefused, OrderIsNotRefused};

use llb_board::Board;
use llb_board::laws::{begun_are_plain, settled_are_plain};
use llb_loader::Graph;

/// Proves a law for the graphs of two definitions in which entries with the same digest are equal: vertices with the same digest have the same plain outcome
/// if the sources at or before them have the same local trees. It also proves that a cache mount is at or before both vertices or neither of them.
pub fn one_digest_one_outcome(first: &[u8], graph: &Graph, second: &[u8], other: &Graph)
    ensures { LoadWithoutCollision first.now graph.now second.now other.now → ShareOutcomes graph.now other.now }
{
    let _ = first;
    let _ = second;
    graph.is_graph();
    other.is_graph();
}

/// Proves that the plain outcome of a vertex depends only on the local trees of the sources at or before it.
pub fn outcome_by_sources(graph: &Graph)
    ensures { DependOnSources graph.now }
{
    graph.is_graph();
}

/// Proves a law for two boards over the graphs of definitions in which entries with the same digest are equal. If two vertices with the same digest are done or
/// failed, one on each board, they have the same outputs or the same fault. The premises: no cache mount is at or before them, and the sources at or before
/// them have the same trees. This holds for any workers and any order of events, whatever caches other vertices share.
pub fn boards_settle_alike(first: &[u8], board: &Board, second: &[u8], other: &Board)
    ensures { LoadWithoutCollision first.now board.now.build.graph second.now other.now.build.graph → SettleAlike board.now other.now }
{
    let _ = first;
    let _ = second;
    board.is_graph();
    other.is_graph();
    settled_are_plain(board);
    settled_are_plain(other);
}

/// Proves that in two definitions entries with the same digest are equal (the definitions do not collide) if all these entries are entries of one loaded
/// definition. So a loaded definition collides neither with itself nor with a definition that has only some of its entries.
pub fn parts_do_not_collide(definition: &[u8], graph: &Graph)
    ensures { PartsDoNotCollide definition.now graph.now }
{
    let _ = definition;
    let _ = graph;
}

/// Proves a law for the graphs of two definitions in which entries with the same digest are equal: vertices with the same digest have the same job, except for
/// the numbers of worker and vertex, if the sources at or before them have the same local trees. The law is about jobs without cache instances; a claim hands
/// out such a job if no cache mount is at or before the vertex.
pub fn one_digest_one_job(first: &[u8], graph: &Graph, second: &[u8], other: &Graph)
    ensures { LoadWithoutCollision first.now graph.now second.now other.now → ShareJobs graph.now other.now }
{
    let _ = first;
    let _ = second;
    graph.is_graph();
    other.is_graph();
}

/// Proves that an outcome of a vertex of another graph can be landed on the board for a worker. The premises: the worker has done no micro-step of its vertex;
/// this vertex and the other have the same digest; the sources at or before them have the same trees; no cache mount is at or before them; and entries of the
/// two graphs' definitions with the same digest have the same bytes. Once the numbers of this worker and its vertex are put into the outcome's job, the outcome
/// meets the condition of `Board::land_known`.
pub fn worked_elsewhere_lands(first: &[u8], graph: &Graph, second: &[u8], board: &Board)
    ensures { LoadWithoutCollision first.now graph.now second.now board.now.build.graph → WorkedElsewhereLands graph.now board.now }
{
    let _ = first;
    let _ = second;
    graph.is_graph();
    board.is_graph();
    begun_are_plain(board);
}

/// Proves a law for two graphs and any relation between their vertices that is a matching: vertices that it relates do the same on inputs that match, or have
/// the same plain outcome already. Then all vertices that it relates have the same plain outcome. Numbers, digests and the order of entries do not matter, nor
/// do names of local sources or vertices that the relation leaves out.
pub fn matched_vertices_end_alike(graph: &Graph, matched: &Graph)
    ensures { MatchedEndAlike graph.now matched.now }
{
    graph.is_graph();
    matched.is_graph();
}

/// Proves a law for two boards and a matching of their builds. If two vertices that it relates are done or failed, one on each board, they have equal outputs
/// or equal faults. The premise: no cache mount is at or before either of them. This holds for any workers and any order of events.
pub fn matched_vertices_settle_alike(board: &Board, matched: &Board)
    ensures { MatchedSettleAlike board.now matched.now }
{
    board.is_graph();
    matched.is_graph();
    settled_are_plain(board);
    settled_are_plain(matched);
}

/// Proves a law for two graphs of which the second is the first with its local sources renamed: each vertex has the same plain outcome in both, if the trees
/// are given under the new names. Digests may differ.
pub fn renamed_sources_end_alike(graph: &Graph, renamed: &Graph)
    ensures { RenamedEndAlike graph.now renamed.now }
{
    graph.is_graph();
    renamed.is_graph();
}

/// Proves `renamed_sources_end_alike` for two boards: vertices with the same number have the same plain outcome, and if both are done or failed, and no cache
/// mount is at or before either of them, they have equal outputs or equal faults. This holds for any workers and any order of events.
pub fn renamed_sources_settle_alike(board: &Board, renamed: &Board)
    ensures { RenamedSettleAlike board.now renamed.now }
{
    board.is_graph();
    renamed.is_graph();
    settled_are_plain(board);
    settled_are_plain(renamed);
}

/// Proves a law for two graphs of which the second is the first with outputs of vertices replaced by local sources that have the outputs' trees: each other
/// vertex of the second graph has the same plain outcome as the vertex of the first that it copies. The second may number its vertices anew, and drop those
/// that its result does not need. So kept outputs of an earlier run can take the places of the work that made them.
pub fn kept_results_stand_in(graph: &Graph, resumed: &Graph)
    ensures { KeptStandIn graph.now resumed.now }
{
    graph.is_graph();
    resumed.is_graph();
}

/// Proves `kept_results_stand_in` for the trees that `Board::output` returns for the first board, if no cache mount is at or before the vertices that have
/// these outputs: each copy on the second board has the same plain outcome as its original, and if both are done or failed, and no cache mount is at or before
/// either of them, they have equal outputs or equal faults. This holds for any workers and any order of events, also for a first board that is not complete.
pub fn kept_outputs_stand_in(board: &Board, continued: &Board)
    ensures { KeptOutputsStandIn board.now continued.now }
{
    board.is_graph();
    continued.is_graph();
    settled_are_plain(board);
    settled_are_plain(continued);
}

/// Proves that vertices with one key do the same work: the key has the vertex's digest, and the name and the digest of the tree of each source at or before it.
/// The premises: entries with the same digest are equal, and so are trees with the same digest, by whatever function the digests of trees are made.
pub fn keys_share_outcomes(first: &[u8], graph: &Graph, second: &[u8], other: &Graph)
    ensures { LoadWithoutCollision first.now graph.now second.now other.now → KeysShareOutcomes graph.now other.now }
{
    let _ = first;
    let _ = second;
    graph.is_graph();
    other.is_graph();
}

/// Proves that a run may use the outputs that an earlier board has kept. Take a graph, and the same graph with local sources in the places of outputs; each
/// source has the tree that the board returns for a vertex with the same key, with no cache mount at or before it. Then each vertex that is left has the same
/// plain outcome. The premises are those of `keys_share_outcomes`.
pub fn kept_outputs_serve(
    first: &[u8],
    board: &Board,
    second: &[u8],
    later: &Graph,
    shortened: &Graph,
)
    ensures { LoadWithoutCollision first.now board.now.build.graph second.now later.now → KeptOutputsServe board.now later.now shortened.now }
{
    let _ = first;
    let _ = second;
    board.is_graph();
    later.is_graph();
    shortened.is_graph();
    settled_are_plain(board);
}

/// Proves that the last entry of a definition decides its result: two definitions in which entries with the same digest are equal, and which have the same last
/// entry, have the same result, if the sources at or before it have the same local trees. Each vertex of the first graph has an equal in the second.
pub fn last_entry_decides(first: &[u8], graph: &Graph, second: &[u8], other: &Graph)
    ensures { LoadWithoutCollision first.now graph.now second.now other.now → EndInOneEntry first.now second.now → ShareResults graph.now other.now }
{
    let _ = first;
    let _ = second;
    graph.is_graph();
    other.is_graph();
}

/// Proves that entries can be left out of a definition, put into another order, or repeated: if the definition that this makes can be loaded and has the same
/// last entry, it has the same result. That entries with the same digest are equal is no premise.
pub fn part_has_same_result(definition: &[u8], graph: &Graph, part: &[u8], smaller: &Graph)
    ensures { PartSharesResult definition.now graph.now part.now smaller.now }
{
    let _ = definition;
    let _ = part;
    graph.is_graph();
    smaller.is_graph();
}

/// Proves that the order of a definition's entries does not matter, except for which is the last: definitions that can be loaded, have the same entries up to
/// order, and have the same last entry have the same result.
pub fn order_does_not_matter(definition: &[u8], graph: &Graph, reordered: &[u8], renumbered: &Graph)
    ensures { OrderSharesResult definition.now graph.now reordered.now renumbered.now }
{
    let _ = definition;
    let _ = reordered;
    graph.is_graph();
    renumbered.is_graph();
}

/// Proves that entries can be left out of a definition that is loaded as this graph, or put into another order: no refusal applies to what this makes, so that
/// `load` fails only for want of memory. `part`: it has some of the entries, the same last entry, and each entry from which a vertex of the graph is made.
/// `order`: it has the same entries up to order, and the same last entry.
pub fn parts_are_not_refused(definition: &[u8], graph: &Graph, part: &[u8])
    ensures part { PartIsNotRefused definition.now graph.now part.now }
    ensures order { OrderIsNotRefused definition.now graph.now part.now }
{
    let _ = definition;
    let _ = part;
    graph.is_graph();
}

/// Proves a law for two definitions of which the second is the first with each entry rewritten: local sources have other names, and the digest in each input is
/// that of what the entry that it names is rewritten to. If the trees are given under the new names, the results are the same, and so is the plain outcome of
/// each vertex. The second definition may have other entries too, in any order; that entries with the same digest are equal is no premise.
pub fn rewritten_has_same_result(
    definition: &[u8],
    graph: &Graph,
    rewritten: &[u8],
    changed: &Graph,
)
    ensures { RewritingSharesResult definition.now graph.now rewritten.now changed.now }
{
    let _ = definition;
    let _ = rewritten;
    graph.is_graph();
    changed.is_graph();
}

/// Proves `rewritten_has_same_result` for two boards: the vertices of the results have the same plain outcome, and if both are done or failed, and no cache
/// mount is at or before either of them, they have equal outputs or equal faults. This holds for any workers and any order of events.
pub fn rewritten_settles_alike(definition: &[u8], board: &Board, rewritten: &[u8], changed: &Board)
    ensures { RewritingSettlesAlike definition.now board.now rewritten.now changed.now }
{
    let _ = definition;
    let _ = rewritten;
    board.is_graph();
    changed.is_graph();
    settled_are_plain(board);
    settled_are_plain(changed);
}

/// Proves a law for a board of a definition and a board of another whose entries are all entries of the first, in any order, with the same last entry. If the
/// results of both are done or failed, they have equal outputs or equal faults. The premises: no cache mount is at or before the result, and the sources at or
/// before it have the same trees. This holds for any workers and any order of events.
pub fn part_settles_alike(definition: &[u8], board: &Board, part: &[u8], smaller: &Board)
    ensures { PartSettlesAlike definition.now board.now part.now smaller.now }
{
    let _ = definition;
    let _ = part;
    board.is_graph();
    smaller.is_graph();
    settled_are_plain(board);
    settled_are_plain(smaller);
}
