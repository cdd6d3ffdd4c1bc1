//! Laws of contents, for any graph, any local trees and any table of tokens (the content of each token). Given a relation between contents, trees are *alike*
//! if they differ only in the contents of files, and the two contents at each path are related.

ghost use Rattle.llb_laws.specs.ContentLaws.{ActsAlike, LaysAlike, RunsAlike, ExpandsToOne};
ghost use Rattle.llb_laws.specs.ContentLaws.{HandsContentsOn, HandsExpansionsOn, HandsRelationsOn, HandsTokensOn, HandsUndigestedOn};
ghost use Rattle.llb_laws.specs.AlikeBoards.{SettleAlike, SettleExchanged};
ghost use Rattle.llb_laws.specs.TokenRuns.{BoardStandsForContents, HandsRunContentsOn, HandsRunRelationsOn, HandsRunTokensOn, NeedsNoCaches};
ghost use Rattle.llb_laws.specs.OtherContents.{HaveTokensByEachTable, RunsServeEachTable, ServesEachTable};

use llb_applet::{Command, Setting, View};
use llb_board::Board;
use llb_loader::Graph;
use llb_ops::Action;
use llb_tree::Tree;

/// Proves that laying alike trees over alike trees results in alike trees. (Alike trees differ only in the contents of files, and the two contents at each
/// path are related.)
pub fn lays_alike(lower: &Tree, upper: &Tree)
    ensures { LaysAlike lower.now upper.now }
{
    let _ = lower;
    let _ = upper;
}

/// Proves that an action on alike trees fails with the same fault, or results in alike trees, if the content that the action itself writes is related to
/// itself. (Alike trees differ only in the contents of files, and the two contents at each path are related.)
pub fn acts_alike(action: &Action, base: &Tree, second: &Tree)
    ensures { ActsAlike action.now.kind base.now second.now }
{
    let _ = action;
    let _ = base;
    let _ = second;
}

/// Proves that a command on two alike views fails on both, or results in alike views. (Alike views differ only in the contents of files, which are related.)
/// The premises: appending keeps the relation; each text that the command itself writes is related to itself; and if the command writes digests, digests of
/// related contents are related.
pub fn runs_alike(setting: &Setting, view: &View, command: &Command)
    ensures { RunsAlike setting.now view.now command.now }
{
    let _ = setting;
    let _ = view;
    let _ = command;
}

/// Proves a law for a vertex and two lists of local trees. If each local source at or before the vertex has trees in the two lists that differ only in the
/// contents of files, and these contents are related, then the plain outcomes of the vertex with the two lists differ only in related contents: both are
/// blocked, both failed with the same fault, or both are done with equally many outputs. Each clause is for one kind of relation, with further premises.
/// `relations`: any relation that appending keeps, if each content that the ops themselves write is related to itself, and digests of related contents are
/// related. `expansions`: the relation that a function expands the first content to the second; same premises. `tokens`: the same relation for contents with
/// tokens (the byte 255 and a number of four bytes), if nothing at or before the vertex writes the byte 255, the paths in the trees of its sources consist of
/// names, and the sources at or before each exec that makes a digest have the same trees in both lists, without the byte 255. `undigested`: any relation that
/// appending keeps and that relates each content to itself, if no exec at or before the vertex makes a digest. `contents`: the relation that the second content
/// is the first with some pieces replaced, each by its partner in a list of pairs, if no exec at or before the vertex makes a digest.
pub fn contents_are_handed_on(graph: &Graph)
    ensures relations { HandsRelationsOn graph.now }
    ensures expansions { HandsExpansionsOn graph.now }
    ensures tokens { HandsTokensOn graph.now }
    ensures undigested { HandsUndigestedOn graph.now }
    ensures contents { HandsContentsOn graph.now }
{
    graph.is_graph();
}

/// Proves that a tree expands to at most one tree, for any function that expands the contents of files.
pub fn expands_to_one(tree: &Tree)
    ensures { ExpandsToOne tree.now }
{
    let _ = tree;
}

/// Proves a law for a vertex that is done or failed on two boards over one graph, with no cache mount at or before it. If the trees of the sources at or
/// before the vertex differ only in related contents, the vertex is done on both boards, with outputs that differ only in related contents, or failed on both
/// with the same fault. The other premises are those of `relations` and `contents` of `contents_are_handed_on`. This holds for any workers and any order of
/// events.
pub fn boards_settle_alike(board: &Board, other: &Board)
    ensures relations { SettleAlike board.now other.now }
    ensures contents { SettleExchanged board.now other.now }
{
    board.is_graph();
    board.replays();
    other.is_graph();
    other.replays();
}

/// Proves a law for whole runs of a graph, caches included. Two runs begin with no vertex run, with the same number of workers, and with local trees and caches
/// that differ only in the contents of files, and these contents are related. Then the same events are granted in both, in any order, and after them the
/// statuses of vertices, the outputs, what workers do, the caches and the replies differ only in related contents; and an event that is refused in one is
/// refused in the other for the same cause. Each clause is for one kind of relation, with further premises, on all vertices of the graph. `relations`: any
/// relation that appending keeps, if each content that the ops themselves write is related to itself, and digests of related contents are related. `tokens`:
/// the first content has tokens (the byte 255 and a number of four bytes), and expands to the second, if nothing writes the byte 255, paths in trees consist of
/// names (the calls of `names` prove it), and what has to be given by value is the same in both runs, without the byte 255: the trees of sources at or before
/// an exec that makes a digest and, if there is one, the caches, and the trees of sources at or before each exec that mounts a cache. `contents`: the second
/// content is the first with some pieces replaced, each by its partner in a list of pairs, if no exec makes a digest.
pub fn records_are_handed_on(graph: &Graph)
    ensures relations { HandsRunRelationsOn graph.now }
    ensures tokens { HandsRunTokensOn graph.now }
    ensures contents { HandsRunContentsOn graph.now }
{
    graph.is_graph();
}

/// Proves a law for a board on which tokens stand for contents, in its local trees and in the caches with which it was opened; the premises are those of
/// `tokens` of `records_are_handed_on`. `contents`: the board's record is granted as well on the contents themselves, with replies that differ only in that
/// tokens are expanded, so that the lines that are printed for the events are the same; the next event is granted or refused alike, and the state there is
/// complete exactly if the board is. The tree of the result, and the tree of each cache instance, with its tokens replaced by contents, is the tree there. This
/// holds for any workers and any order of events. `fresh`: if there are no caches at the opening, the premises on local trees suffice.
pub fn boards_stand_for_contents(board: &Board)
    ensures contents { BoardStandsForContents board.now }
    ensures fresh { NeedsNoCaches board.now.build.graph }
{
    board.is_graph();
    board.replays();
}

/// Proves a law for runs that are kept: one run on tokens serves each table of contents. Given are local trees and caches with tokens for contents by one
/// table; the premises are those of `tokens` of `records_are_handed_on`. For any other table, and the local trees and caches that these are if each token is
/// replaced by its content in the other table, the premises hold too (`tokens`), so the run on the tokens is the run on the new contents (`runs`). Nothing is
/// asked of the other contents themselves.
pub fn runs_serve_each_table(graph: &Graph)
    ensures tokens { HaveTokensByEachTable graph.now }
    ensures runs { RunsServeEachTable graph.now }
{
    graph.is_graph();
}

/// Proves the same law for a board, after any events: it stands, by each table, for a board on the contents of that table. So its result with each token
/// replaced by its content in the table is the result there, and nothing has to run again.
pub fn board_serves_each_table(board: &Board)
    ensures { ServesEachTable board.now }
{
    board.is_graph();
    board.replays();
}
