//! Tests of boards on tokens. Each row has the entries of a definition, local trees with tokens, the local trees for which they stand, the list of contents,
//! and whether the first stand for the others. If they do, the run on the tokens is done to its end, and its result is in the row too. Other rows have other
//! contents, and whether the run on the tokens serves them.

use super::boards_from_texts::{graph_from, locals_of};
use super::runs_taken_back::finish;
use super::tree_rows::row_holds;
use super::worker_stories::say_tree;
use llb_board::Board;
use llb_cache::Caches;
use llb_laws::boards_on_tokens::{
    have_tokens, open_on_tokens, serves_other_contents, stands_for_contents,
};
use llb_wire::Bytes;
use std::alloc::Global;
use std::process::Abort;

struct Row {
    definition: &'static str,
    tokens: &'static str,
    locals: &'static str,
    contents: &'static [&'static str],
    // The result's tree; an empty text if no board is opened.
    result: &'static str,
}

// The local source `q`, a copy of its file `/f`, and the result.
const COPIES: &str = "SOURCE_Q; op { | inputs { | digest %0 | } | exec {
meta { | args \"cp\" | args \"/f\" | args \"/g\" | cwd \"/\" | } | mounts { | dest \"/\" | }
} | }; RESULT_1";

// The local source `q`, the digest of its file `/f`, and the result.
const DIGESTS: &str = "SOURCE_Q; op { | inputs { | digest %0 | } | exec {
meta { | args \"sha256\" | args \"/f\" | args \"/g\" | cwd \"/\" | } | mounts { | dest \"/\" | }
} | }; RESULT_1";

// The local source `q` as the first tree of a cache, beside an exec that makes a digest of its own file.
const CACHES: &str =
    "SOURCE_Q; shared on 0: true; sh: write /x k && sha256 /x /y; MERGES_1_2; RESULT_3";

// The same beside an exec that makes no digest.
const CACHES_ALONE: &str = "SOURCE_Q; shared on 0: true; sh: write /x k; MERGES_1_2; RESULT_3";

// The local source `q` below a file with the byte 255.
const WRITES_255: &str = "SOURCE_Q; op { | inputs { | digest %0 | } | file {
actions { | mkfile { | path \"/a\" | mode 420 | data ff | } | }
} | }; RESULT_1";

const FIRST: &str = "== q\nd 0755 0 0 /\nf 0644 0 0 ff00000000 /f\n";

const SECOND: &str = "== q\nd 0755 0 0 /\nf 0644 0 0 ff00000001 /f\n";

const CUT: &str = "== q\nd 0755 0 0 /\nf 0644 0 0 ff000000 /f\n";

const AROUND: &str = "== q\nd 0755 0 0 /\nf 0644 0 0 68ff0000000021 /f\n";

const HI: &str = "== q\nd 0755 0 0 /\nf 0644 0 0 6869 /f\n";

const HI_THERE: &str = "== q\nd 0755 0 0 /\nf 0644 0 0 686921 /f\n";

const BYE: &str = "== q\nd 0755 0 0 /\nf 0644 0 0 627965 /f\n";

const OTHER_MODE: &str = "== q\nd 0755 0 0 /\nf 0600 0 0 6869 /f\n";

// SHA-256 of `hi`, in digits and with a line end, is in `/g`.
const DIGEST_OF_HI: &str = "d 0755 0 0 /
f 0644 0 0 6869 /f
f 0644 0 0 386634333433343636343866366239366466383964646139303163353137366231306136643833393631646433633161633838623539623264633332376161340a /g
";

const ROWS: &[Row] = &[
    Row {
        definition: COPIES,
        tokens: FIRST,
        locals: HI,
        contents: &["hi"],
        result: "d 0755 0 0 /\nf 0644 0 0 ff00000000 /f\nf 0644 0 0 ff00000000 /g\n",
    },
    // A token between bytes that stand for themselves.
    Row {
        definition: COPIES,
        tokens: AROUND,
        locals: HI_THERE,
        contents: &["i"],
        result: "d 0755 0 0 /\nf 0644 0 0 68ff0000000021 /f\nf 0644 0 0 68ff0000000021 /g\n",
    },
    // The content of the number is another one, the number is past the list, or the token is cut.
    Row {
        definition: COPIES,
        tokens: FIRST,
        locals: HI,
        contents: &["ho"],
        result: "",
    },
    Row {
        definition: COPIES,
        tokens: SECOND,
        locals: HI,
        contents: &["hi"],
        result: "",
    },
    Row {
        definition: COPIES,
        tokens: CUT,
        locals: HI,
        contents: &["hi"],
        result: "",
    },
    // The trees differ in more than contents, or one of them is not given.
    Row {
        definition: COPIES,
        tokens: FIRST,
        locals: OTHER_MODE,
        contents: &["hi"],
        result: "",
    },
    Row {
        definition: COPIES,
        tokens: FIRST,
        locals: "",
        contents: &["hi"],
        result: "",
    },
    // A content before a digest is given by value, SHA-256 of `hi`.
    Row {
        definition: DIGESTS,
        tokens: FIRST,
        locals: HI,
        contents: &["hi"],
        result: "",
    },
    Row {
        definition: DIGESTS,
        tokens: HI,
        locals: HI,
        contents: &[],
        result: DIGEST_OF_HI,
    },
    // A content before a cache mount is given by value, if there is a digest anywhere.
    Row {
        definition: CACHES,
        tokens: FIRST,
        locals: HI,
        contents: &["hi"],
        result: "",
    },
    Row {
        definition: CACHES_ALONE,
        tokens: FIRST,
        locals: HI,
        contents: &["hi"],
        result: "d 0755 0 0 /\nf 0644 0 0 6b0a /x\n",
    },
    // What is written may be taken for a token.
    Row {
        definition: WRITES_255,
        tokens: HI,
        locals: HI,
        contents: &["hi"],
        result: "",
    },
];

fn contents_of(rt: &impl Abort, alloc: Global, written: &[&str]) -> Vec<Bytes> {
    let mut contents = Vec::new(alloc);
    for text in written {
        let content = Bytes::from_slice(alloc, text.as_bytes()).expect(rt, "memory");
        contents.push(content).expect(rt, "memory");
    }
    contents
}

fn result_of(rt: &impl Abort, alloc: Global, board: &mut Board) -> String {
    let _ = finish(board);
    let mut text = String::new(alloc);
    let result = board.graph().result();
    let tree = board.output(result.vertex, result.index);
    say_tree(rt, &mut text, tree.expect(rt, "a result"));
    text
}

// Returns whether a row is as it says, and the checks of its trees agree.
fn holds(rt: &impl Abort, alloc: Global, row: &Row) -> bool {
    let contents = contents_of(rt, alloc, row.contents);
    let contents = contents.as_slice();
    let graph = graph_from(rt, alloc, row.definition);
    let tokens = locals_of(rt, alloc, row.tokens);
    let again = locals_of(rt, alloc, row.tokens);
    let locals = locals_of(rt, alloc, row.locals);
    let have = have_tokens(alloc, &graph, contents, &tokens, &locals).expect(rt, "memory");
    let opened = open_on_tokens(alloc, graph, contents, tokens, &locals, 1);
    let Some(mut board) = opened.ok().expect(rt, "a board") else {
        return row.result.is_empty();
    };
    let result = result_of(rt, alloc, &mut board);
    let stands = stands_for_contents(alloc, &board, contents, &again, &locals);
    have && stands.expect(rt, "memory") && result.as_str() == row.result
}

#[test]
fn a_board_is_opened_on_tokens_that_stand_for_contents(rt: HostRuntime) {
    for k in 0..ROWS.len() {
        row_holds(&rt, k, holds(&rt, rt.alloc(), &ROWS[k]));
    }
}

struct Change {
    definition: &'static str,
    tokens: &'static str,
    // The local trees and contents for which the tokens stood.
    locals: &'static str,
    contents: &'static [&'static str],
    // Other ones, and whether the run on the tokens serves them.
    changed: &'static str,
    others: &'static [&'static str],
    serves: bool,
}

const CHANGES: &[Change] = &[
    Change {
        definition: COPIES,
        tokens: FIRST,
        locals: HI,
        contents: &["hi"],
        changed: BYE,
        others: &["bye"],
        serves: true,
    },
    // The list has not what the file has.
    Change {
        definition: COPIES,
        tokens: FIRST,
        locals: HI,
        contents: &["hi"],
        changed: BYE,
        others: &["hi"],
        serves: false,
    },
    // The mode has changed too.
    Change {
        definition: COPIES,
        tokens: FIRST,
        locals: HI,
        contents: &["hi"],
        changed: OTHER_MODE,
        others: &["hi"],
        serves: false,
    },
    // A content that was given by value has changed.
    Change {
        definition: DIGESTS,
        tokens: HI,
        locals: HI,
        contents: &[],
        changed: BYE,
        others: &["bye"],
        serves: false,
    },
    // The tokens stood for nothing: there is no run to keep.
    Change {
        definition: DIGESTS,
        tokens: FIRST,
        locals: HI,
        contents: &["hi"],
        changed: BYE,
        others: &["bye"],
        serves: false,
    },
];

// Returns whether a row is as it says.
fn serves_as_said(rt: &impl Abort, alloc: Global, row: &Change) -> bool {
    let graph = graph_from(rt, alloc, row.definition);
    let tokens = locals_of(rt, alloc, row.tokens);
    let board = Board::open(alloc, graph, tokens, Caches::new(alloc), 1);
    let board = board.ok().expect(rt, "a board");
    let serves = serves_other_contents(
        alloc,
        &board,
        &locals_of(rt, alloc, row.tokens),
        contents_of(rt, alloc, row.contents).as_slice(),
        &locals_of(rt, alloc, row.locals),
        contents_of(rt, alloc, row.others).as_slice(),
        &locals_of(rt, alloc, row.changed),
    );
    serves.expect(rt, "memory") == row.serves
}

#[test]
fn a_run_on_tokens_serves_other_contents(rt: HostRuntime) {
    for k in 0..CHANGES.len() {
        row_holds(&rt, k, serves_as_said(&rt, rt.alloc(), &CHANGES[k]));
    }
}
