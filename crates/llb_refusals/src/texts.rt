//! Texts that are read and written while memory is refused: trees, patterns, the paths of file actions, and entries.

use super::refused_growths::{Row, Trial, are_refused};
use super::value_texts::{path_of, printed_fault, printed_path, printed_text, printed_tree, say};
use super::values_from_texts::{entries_of, entries_text, printed_entries, tree_named};
use llb_asm::{AsmFault, assemble, describe, disassemble};
use llb_fileop::{ActFault, resolve};
use llb_glob::{Pattern, PatternFault};
use llb_ops::Entries;
use llb_samples::tree_text;
use llb_tree::{Path, Tree};
use llb_treetext::{PrintFault, TextFault, print_tree, read_tree, tree_digest};
use llb_wire::{Over, Same, Text, all_same};
use std::alloc::Global;
use std::process::Abort;

#[derive(Drop)]
enum Answer {
    None,
    Printed(Result<(), PrintFault>),
    Disassembled(Result<(), AsmFault>),
    Tree(Result<Tree, TextFault>),
    Digest(Result<Text, TextFault>),
    Pattern(Result<Pattern, PatternFault>),
    Path(Result<(Path, bool), ActFault>),
    Entries(Result<Entries, AsmFault>),
}

// A text to be read; a tree and entries to be written, each with an equal value to compare with; and the bytes that are
// written.
#[derive(Drop)]
struct OnText {
    call: &'static str,
    text: String,
    tree: Tree,
    twin: Tree,
    entries: Entries,
    others: Entries,
    out: Vec<u8>,
    wanted: &'static str,
    answer: Answer,
}

// Returns those of the three paths `/abc`, `/*` and `/d` that a pattern matches, as one text.
fn printed_matches(rt: &impl Abort, alloc: Global, pattern: &Pattern) -> String {
    let mut text = String::new(alloc);
    for path in ["/abc", "/*", "/d"] {
        if pattern.matches(&path_of(rt, alloc, path)) {
            say(rt, &mut text, path);
        }
    }
    text
}

fn printed_resolved(rt: &impl Abort, alloc: Global, path: &Path, ends: bool) -> String {
    let mut text = printed_path(rt, alloc, path);
    say(rt, &mut text, if ends { " ends" } else { " does not end" });
    text
}

fn printed_out(rt: &impl Abort, alloc: Global, out: &[u8]) -> String {
    printed_text(rt, alloc, str::from_utf8(out).unwrap_or("no text"))
}

fn print(alloc: Global, tree: &Tree, out: &mut Vec<u8>) -> Answer {
    out.clear();
    Answer::Printed(print_tree(alloc, tree, &mut Over::new(out)))
}

fn write(alloc: Global, entries: &Entries, out: &mut Vec<u8>) -> Answer {
    out.clear();
    Answer::Disassembled(disassemble(alloc, entries, &mut Over::new(out)))
}

fn write_ops(alloc: Global, entries: &Entries, out: &mut Vec<u8>) -> Answer {
    out.clear();
    Answer::Disassembled(describe(alloc, entries, &mut Over::new(out)))
}

impl OnText {
    fn printed_value(&self, rt: &impl Abort, alloc: Global) -> Option<String> {
        match &self.answer {
            Answer::Printed(Ok(())) | Answer::Disassembled(Ok(())) => {
                Some(printed_out(rt, alloc, &self.out))
            }
            Answer::Tree(Ok(tree)) => Some(printed_tree(rt, alloc, tree)),
            Answer::Digest(Ok(digest)) => Some(printed_text(rt, alloc, digest.as_str())),
            Answer::Pattern(Ok(pattern)) => Some(printed_matches(rt, alloc, pattern)),
            Answer::Path(Ok((path, ends))) => Some(printed_resolved(rt, alloc, path, *ends)),
            Answer::Entries(Ok(entries)) => Some(printed_entries(rt, alloc, entries)),
            _ => None,
        }
    }

    fn printed_refusal(&self, rt: &impl Abort, alloc: Global) -> String {
        match &self.answer {
            Answer::Printed(Err(fault)) => printed_fault(rt, alloc, fault),
            Answer::Tree(Err(fault)) | Answer::Digest(Err(fault)) => printed_fault(
                rt, alloc, fault,
            ),
            Answer::Pattern(Err(fault)) => printed_fault(rt, alloc, fault),
            Answer::Path(Err(fault)) => printed_fault(rt, alloc, fault),
            Answer::Entries(Err(fault)) | Answer::Disassembled(Err(fault)) => {
                printed_fault(rt, alloc, fault)
            }
            _ => printed_text(rt, alloc, "nothing"),
        }
    }
}

impl OnText {
    // Makes the call, and returns its result.
    fn answered(&mut self, alloc: Global) -> Answer {
        let text = self.text.as_str();
        match self.call {
            "print_tree" => print(alloc, &self.tree, &mut self.out),
            "disassemble" => write(alloc, &self.entries, &mut self.out),
            "describe" => write_ops(alloc, &self.entries, &mut self.out),
            "read_tree" => Answer::Tree(read_tree(alloc, text.as_bytes())),
            "tree_digest" => Answer::Digest(tree_digest(alloc, &self.tree)),
            "Pattern::read" => Answer::Pattern(Pattern::read(alloc, text)),
            "resolve" => Answer::Path(resolve(alloc, text)),
            _ => Answer::Entries(assemble(alloc, text.as_bytes())),
        }
    }
}

impl Trial for OnText {
    fn ready(rt: &impl Abort, alloc: Global, row: &Row) -> OnText {
        let (call, on, _, wanted) = *row;
        let tree = match call {
            "print_tree" | "tree_digest" => on,
            _ => "EMPTY",
        };
        let entries = match call {
            "assemble" | "disassemble" | "describe" => on,
            _ => "raw 00",
        };
        let text = match call {
            "assemble" => entries_text(rt, alloc, on),
            _ => printed_text(rt, alloc, tree_text(on)),
        };
        OnText {
            call,
            text,
            tree: tree_named(rt, alloc, tree),
            twin: tree_named(rt, alloc, tree),
            entries: entries_of(rt, alloc, entries),
            others: entries_of(rt, alloc, entries),
            out: Vec::with_capacity(alloc, 1000).expect(rt, "memory"),
            wanted: tree_text(wanted),
            answer: Answer::None,
        }
    }

    fn call(&mut self, alloc: Global) {
        self.answer = self.answered(alloc);
    }

    fn printed(&self, rt: &impl Abort, alloc: Global) -> String {
        match self.printed_value(rt, alloc) {
            Some(printed) => printed,
            None => self.printed_refusal(rt, alloc),
        }
    }

    // Returns whether the bytes that were written are the beginning of the expected text, and the tree and the entries are
    // unchanged.
    fn is_as_before(&mut self, _rt: &impl Abort, _alloc: Global) -> bool {
        self.wanted.as_bytes().starts_with(self.out.as_slice())
            && self.tree.same(&self.twin)
            && all_same(self.entries.as_slice(), self.others.as_slice())
    }
}

// A merge of one input, the empty tree, with a platform and constraints.
const MERGE: &str = "raw 320d0a0b08ffffffffffffffffff01520e0a05616d64363412056c696e75785a00";

// The same op with its fields in another order.
const MERGE_LAST: &str = "raw 520e0a05616d64363412056c696e75785a00320d0a0b08ffffffffffffffffff01";

const MERGE_DEFINITION: &str =
    "0a21320d0a0b08ffffffffffffffffff01520e0a05616d64363412056c696e75785a00";

const MERGE_TEXT: &str =
    "op {\n  merge {\n    inputs {\n      input -1\n    }\n  }\n  extra 520e0a05616d64363412056c696e75785a00\n}\n";

const A_DEFINITION: &str = "0a1c221a121808ffffffffffffffffff012a0b0a022f6110a4031a026869";

const A_FILE: &str = "d 0755 0 0 /\nf 0644 0 0 6869 /a\n";

const DIGEST: &str = "sha256:5de211d85590268925259f8c7cd45d229b00372355255c350a38752ed1c86a47";

const ROWS: &[Row] = &[
    ("print_tree", "A_B", "34", "A_B"),
    ("print_tree", A_FILE, "34", A_FILE),
    ("read_tree", "OLD", "34", "OLD"),
    ("read_tree", "F", "34", "F"),
    ("read_tree", "A_B", "34", "A_B"),
    ("tree_digest", "EMPTY", "34", DIGEST),
    ("Pattern::read", "a*c", "42", "/abc"),
    ("Pattern::read", "\\*", "42", "/*"),
    ("Pattern::read", "[^a-c]", "42", "/*/d"),
    ("resolve", "a//b/../", "53", "/a ends"),
    ("assemble", MERGE, "163", MERGE_DEFINITION),
    ("assemble", "# a comment; \traw b20000", "163", "0a03b20000"),
    ("assemble", "MAKES_A", "163", A_DEFINITION),
    ("disassemble", MERGE, "163", MERGE_TEXT),
    ("disassemble", "raw b20000", "163", "raw b20000\n"),
    ("describe", MERGE_LAST, "163", MERGE_TEXT),
    ("describe", "raw 3201", "163", "raw 3201\n"),
];

#[test]
fn texts(rt: HostRuntime) {
    are_refused::<OnText>(&rt, rt.alloc(), ROWS);
}
