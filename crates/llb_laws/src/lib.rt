//! Laws of digests and of contents: what no result depends on. Vertices with the same digest, or that do the same on equal inputs, have the same outcome, also
//! in two graphs; so work that was done in one run can be used in another. And if the local trees of two runs differ only in the contents of files, and these
//! contents are related by a relation that appending keeps, then outcomes differ only in related contents. `llbm-tools build` uses the laws of contents: it
//! gives the program a short token in place of each content. Besides the laws the crate has calls that test or prove their premises, and some functions that
//! use them. The crate is built on `llb_stepper`, for the lines that are printed.
//!
//! Types: `KeptFault`, why `open_on_kept` opens no board. `specs/AlikeTrees.antt` has the relation on trees, views and outcomes, `specs/AlikeStates.antt` that
//! on states and replies.
//! Promise: `two_graphs::one_digest_one_outcome`: in two definitions in which entries with the same digest are equal, vertices with the same digest have the
//! same plain outcome, if the sources at or before them have the same trees. `two_graphs::one_digest_one_job`: such vertices have the same job, except for the
//! numbers of worker and vertex.
//! `two_graphs::outcome_by_sources`: the outcome of a vertex depends only on the local trees of the sources at or before the vertex.
//! `two_graphs::matched_vertices_end_alike`, `two_graphs::renamed_sources_end_alike` and `two_graphs::kept_results_stand_in`: vertices that do the same on
//! inputs that match have the same plain outcome, whatever their digests are. `two_graphs::part_has_same_result` and `two_graphs::rewritten_has_same_result`:
//! the same of whole definitions.
//! `copies::copies_alike`: a copy depends on the tree that it copies from only at and below what it copies. `copies::reads_end_alike`: so does the outcome of a
//! file op, and of all that follows from it, also in two graphs. `copies::agree_below` and `copies::agree_for`: whether two trees are the same there.
//! `agreed_sources::vertex_agrees` and `agreed_sources::agreements`: whether a vertex reads the same of two trees of a source.
//! `two_graphs::parts_are_not_refused`: a part of a loaded definition that has what its result reaches is refused for no cause. `load_renamed`: whether a
//! definition is another one with local sources renamed. `load_matched`: which vertices of two definitions do the same on inputs that match, and that no more
//! do. `open_on_kept`: a board that goes on from outputs of an earlier board, which local sources replace. `run_twice`: two runs of one definition, of which
//! the premises of the laws in `graphs` hold.
//! `contents::contents_are_handed_on` (`tokens`, `contents`): if the sources have tokens in place of contents, the outcome of a vertex has tokens that expand
//! to the contents that the outcome has if the sources have the contents themselves. The premises: at or before the vertex, no op writes the byte 255; the
//! sources at or before each exec that makes a digest have no tokens; and the paths in sources consist of names, as they do in each tree of the code.
//! `contents::boards_settle_alike`: the outputs of a vertex that two boards have settled differ only in related contents. `contents::records_are_handed_on` and
//! `contents::boards_stand_for_contents`: the same of whole runs, caches included, for any order of events. `token_plan::by_value`,
//! `token_byte_writers::writes_no_mark` and `boards_on_tokens::have_tokens` say exactly whether the premises on tokens hold, for a run without caches at the
//! opening; `boards_on_tokens::open_on_tokens` opens a board if they do, and `boards_on_tokens::stands_for_contents` says it of a board on which anything has
//! happened.
//!
//! A caller:
//!
//!     fn loader(alloc: Global, bytes: &[u8], other: &[u8]) -> Option<usize> {
//!         let (first, second) = load_both(alloc, bytes, other).ok()?;
//!         one_digest_one_outcome(bytes, &first, other, &second);
//!         outcome_by_sources(&first);
//!         Some(first.vertices().len())
//!     }
//!
//!     fn runner(alloc: Global, graph: Graph, contents: &[Bytes], tokens: Locals, locals: &Locals) -> Option<Board> {
//!         open_on_tokens(alloc, graph, contents, tokens, locals, 1).ok()?
//!     }
//!
//!     fn opener(graph: &Graph, locals: &Locals, caches: &Caches) {
//!         locals_have_names(graph, locals);
//!         caches_have_names(caches);
//!     }
//!
//!     fn reader(board: &Board, other: &Board) {
//!         contents_are_handed_on(board.graph());
//!         boards_settle_alike(board, other);
//!         boards_stand_for_contents(board);
//!     }
#![tactic(auto)]

pub mod agreed_sources;
pub mod boards_on_tokens;
pub mod contents;
pub mod copies;
mod definition_parts;
mod fault;
mod kept_outputs;
mod matching;
mod plain_vertices;
mod renaming;
pub mod token_byte_writers;
mod token_expansion;
pub mod token_plan;
mod token_trees;
pub mod trees_with_names;
mod two_definitions;
pub mod two_graphs;
mod two_runs;

pub use definition_parts::load_part;
pub use fault::KeptFault;
pub use kept_outputs::open_on_kept;
pub use matching::load_matched;
pub use renaming::load_renamed;
pub use two_definitions::load_both;
pub use two_runs::run_twice;
