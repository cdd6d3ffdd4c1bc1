//! Tests of vertices that two definitions share. In the tests' texts, a line that begins with `@ ` has the entries of both definitions, in the form that the
//! module `written` describes, with ` AND ` between the definitions. The lines below it have each pair of vertices with the same digest: the vertex's number
//! in the first graph, and its number in the second; or, for each vertex of the second graph that has a partner in the first, both numbers; or how many
//! vertices the graphs of a definition and of a part of it, or of its renaming, have.

use super::boards_from_texts::definition_from;
use super::stories::{StoryKind, are_stories, wanted};
use llb_laws::{load_both, load_matched, load_part, load_renamed};
use llb_loader::{Graph, LoadFault, Vertex};
use llb_wire::{Bytes, Text, read_hex};
use std::alloc::Global;
use std::process::Abort;

const SHARED: &str = "
    # A definition shares all its vertices with itself.
    @ MAKES_A; MAKES_B; MERGES_0_1; RESULT_2 AND MAKES_A; MAKES_B; MERGES_0_1; RESULT_2
    0 = 0
    1 = 1
    2 = 2

    # A definition with further entries has them too, and the numbers can differ.
    @ MAKES_A; RESULT_0 AND MAKES_B; MAKES_A; MERGES_0_1; RESULT_2
    0 = 1

    # The same op on another input is another vertex.
    @ MAKES_A; D_ON_0; RESULT_1 AND MAKES_B; D_ON_0; RESULT_1
    @ SOURCE_P; D_ON_0; RESULT_1 AND SOURCE_P; D_ON_0; RESULT_1
    0 = 0
    1 = 1
    ";

const PARTS: &str = "
    # The entries can be in another order.
    @ MAKES_A; D_ON_0; MAKES_B; RESULT_1 AND MAKES_A; MAKES_B; D_ON_0; RESULT_2
    2 and 2

    # An entry that nothing needs can be left out, and an entry can be repeated.
    @ MAKES_Z; MAKES_A; MAKES_B; MERGES_1_2; RESULT_3 AND MAKES_A; MAKES_B; MERGES_0_1; RESULT_2
    3 and 3
    @ MAKES_A; RESULT_0 AND MAKES_A; MAKES_A; RESULT_0
    1 and 1

    # A definition with an entry that the other does not have, or with another last entry, is no part of it.
    @ MAKES_A; RESULT_0 AND MAKES_B; MAKES_A; RESULT_1
    none
    @ MAKES_A; MAKES_B; RESULT_0 AND MAKES_A; MAKES_B; RESULT_1
    none
    ";

// Before the definitions are the name of a local source and its new name.
const RENAMINGS: &str = "
    # The digests of what is on a source change with the source's name.
    @ p=q: SOURCE_P; D_ON_0; RESULT_1 AND SOURCE_Q; D_ON_0; RESULT_1
    2 and 2
    @ p=p: MAKES_A; SOURCE_P; MERGES_0_1; RESULT_2 AND MAKES_A; SOURCE_P; MERGES_0_1; RESULT_2
    3 and 3

    # Equal entries have equal partners, and two names can become one.
    @ p=q: SOURCE_P; SOURCE_P; MERGES_0_1; RESULT_2 AND SOURCE_Q; SOURCE_Q; MERGES_0_1; RESULT_2
    2 and 2
    @ p=q: SOURCE_P; SOURCE_Q; MERGES_0_1; RESULT_2 AND SOURCE_Q; SOURCE_Q; MERGES_0_1; RESULT_2
    3 and 2
    @ p=q: SOURCE_P; SOURCE_P; MERGES_0_1; RESULT_2 AND SOURCE_P; SOURCE_Q; MERGES_0_1; RESULT_2
    none

    # Another new name, an old name that stays, another op, another input, another order, further entries.
    @ p=z: SOURCE_P; RESULT_0 AND SOURCE_Q; RESULT_0
    none
    @ p=q: SOURCE_P; D_ON_0; RESULT_1 AND SOURCE_P; D_ON_0; RESULT_1
    none
    @ p=q: SOURCE_P; D_ON_0; RESULT_1 AND SOURCE_Q; MAKES_A; RESULT_1
    none
    @ p=q: SOURCE_P; MAKES_A; MERGES_0_1; RESULT_0 AND SOURCE_Q; MAKES_A; MERGES_0_1; RESULT_1
    none
    @ p=q: SOURCE_P; MAKES_A; MERGES_0_1; RESULT_2 AND MAKES_A; SOURCE_Q; MERGES_0_1; RESULT_2
    none
    @ p=q: SOURCE_P; RESULT_0 AND MAKES_A; SOURCE_Q; RESULT_1
    none
    ";

// An attribute of a source has no effect, but it changes the source's digest, and so the digests of what is on the source.
const MATCHINGS: &str = r#"
    # Digests, numbers and the order of entries do not matter.
    @ MAKES_A; SOURCE_P; MERGES_0_1; RESULT_2 AND MAKES_A; op { | source { | identifier "local://p" | attrs { | key "k" | } | } | }; MERGES_0_1; RESULT_2
    0 = 0
    1 = 1
    2 = 2
    @ MAKES_A; MAKES_B; MERGES_0_1; RESULT_2 AND MAKES_B; RESULT_0
    1 = 0
    @ SOURCE_P; D_ON_0; RESULT_1 AND op { | source { | identifier "local://p" | attrs { | key "k" | } | } | }; D_ON_0; RESULT_1
    0 = 0
    1 = 1

    # The same op on another input, and a source with another name, have no partner.
    @ MAKES_A; D_ON_0; RESULT_1 AND MAKES_B; D_ON_0; RESULT_1
    @ SOURCE_P; D_ON_0; RESULT_1 AND SOURCE_Q; D_ON_0; RESULT_1
    @ MAKES_A; MAKES_B; MERGES_0_1; RESULT_2 AND MAKES_B; MAKES_A; MERGES_0_1; RESULT_2
    1 = 0
    0 = 1

    # Of vertices that are alike in the first graph, the lowest is the partner, and what is on any of them is matched too.
    @ SOURCE_P; op { | source { | identifier "local://p" | attrs { | key "k" | } | } | }; MERGES_0_1; RESULT_2 AND SOURCE_P; SOURCE_P; MERGES_0_1; RESULT_2
    0 = 0
    2 = 1
    "#;

// A copy between the local sources `a=b` and `b`; the same after `llbm-tools adopt` renamed `a=b`, which no word NAME=FILE can name, to `a-b`; and after the
// daemon has renamed it to `source-0`. Tests of the tools and of the daemon read these definitions from here.
const BEFORE_RENAMING: &str = concat!(
    "0a0f1a0d0a0b6c6f63616c3a2f2f613d620a0d1a0b0a096c6f63616c3a2f2f620ab1010a490a477368613235363a393437393132383735313834393366373639383137343761",
    "343762336562366161373239366163376435386262396134306630653964666438316563373335640a490a477368613235363a30326538656365633663646239656230646133",
    "30393136336431303438616430653532613566653635343562303430623839343832633534643663316439613522191217100122130a022f6612022f6720ffffffffffffffff",
    "ff010a4b0a490a477368613235363a37366438313266363533653532623730343233396133643262386662623837333634303034623666326237356231633162383864636361",
    "616336646337343730",
);

const RENAMED_BY_ADOPT: &str = concat!(
    "0a0f1a0d0a0b6c6f63616c3a2f2f612d620a0d1a0b0a096c6f63616c3a2f2f620ab1010a490a477368613235363a336335336663656438333735363262326664333261373939",
    "316132303835303265386634383131663035353137373065303763646562376566373334316631320a490a477368613235363a30326538656365633663646239656230646133",
    "30393136336431303438616430653532613566653635343562303430623839343832633534643663316439613522191217100122130a022f6612022f6720ffffffffffffffff",
    "ff010a4b0a490a477368613235363a66356539613433656163316339363731613435643334663034393561386664323137306233323038663939306139313133613463353265",
    "396332363630393539",
);

const RENAMED_BY_DAEMON: &str = concat!(
    "0a141a120a106c6f63616c3a2f2f736f757263652d300a0d1a0b0a096c6f63616c3a2f2f620ab1010a490a477368613235363a31306363376364393839393463336232386232",
    "6136323137366435633136363366333930313563353030383463636564396264643764313063306536383161310a490a477368613235363a3032653865636563366364623965",
    "623064613330393136336431303438616430653532613566653635343562303430623839343832633534643663316439613522191217100122130a022f6612022f6720ffffff",
    "ffffffffffff010a4b0a490a477368613235363a3535623630366136613764346262626637323633636231633039343837336133376139323034666439333964666433363833",
    "6164663538666138313337376666",
);

fn say_shared(rt: &impl Abort, text: &mut String, v: usize, vertex: &Vertex, other: &Graph) {
    for (w, found) in other.vertices().iter().enumerate() {
        if found.digest.as_str() == vertex.digest.as_str() {
            write!(text, "{v} = {w}\n").expect(rt, "memory");
        }
    }
}

fn shared(rt: &impl Abort, alloc: Global, head: &str) -> String {
    let (first, second) = head.split_once(" AND ").expect(rt, "two definitions");
    let first = definition_from(rt, alloc, first);
    let second = definition_from(rt, alloc, second);
    let (graph, other) = load_both(alloc, first.as_slice(), second.as_slice()).expect(rt, "graphs");
    let mut text = String::new(alloc);
    for (v, vertex) in graph.vertices().iter().enumerate() {
        say_shared(rt, &mut text, v, vertex, &other);
    }
    text
}

/// Returns whether the pairs of vertices with the same digest are the pairs that the story has.
pub(crate) fn are_shared(rt: &impl Abort, alloc: Global, head: &str, lines: &str) -> bool {
    shared(rt, alloc, head).as_str() == wanted(rt, alloc, lines).as_str()
}

fn parts(rt: &impl Abort, alloc: Global, head: &str) -> String {
    let (whole, part) = head.split_once(" AND ").expect(rt, "two definitions");
    let whole = definition_from(rt, alloc, whole);
    let part = definition_from(rt, alloc, part);
    let mut text = String::new(alloc);
    match load_part(alloc, whole.as_slice(), part.as_slice()).expect(rt, "graphs") {
        Some((graph, smaller)) => {
            let (count, other) = (graph.vertices().len(), smaller.vertices().len());
            write!(text, "{count} and {other}\n").expect(rt, "memory");
        }
        None => text.push_str("none\n").expect(rt, "memory"),
    }
    text
}

/// Returns whether the numbers of vertices are those that the story has, or whether the second definition is no part of the first, as the story says.
pub(crate) fn are_parts(rt: &impl Abort, alloc: Global, head: &str, lines: &str) -> bool {
    parts(rt, alloc, head).as_str() == wanted(rt, alloc, lines).as_str()
}

fn names_of(rt: &impl Abort, alloc: Global, name: &str, new: &str) -> Vec<(Text, Text)> {
    let name = Text::from_str(alloc, name).expect(rt, "memory");
    let new = Text::from_str(alloc, new).expect(rt, "memory");
    let mut names = Vec::new(alloc);
    names.push((name, new)).expect(rt, "memory");
    names
}

fn renamed(
    rt: &impl Abort,
    alloc: Global,
    names: &[(Text, Text)],
    first: &Bytes,
    second: &Bytes,
) -> String {
    let mut text = String::new(alloc);
    match load_renamed(alloc, first.as_slice(), second.as_slice(), names).expect(rt, "graphs") {
        Some((graph, other)) => {
            let (count, others) = (graph.vertices().len(), other.vertices().len());
            write!(text, "{count} and {others}\n").expect(rt, "memory");
        }
        None => text.push_str("none\n").expect(rt, "memory"),
    }
    text
}

fn renaming(rt: &impl Abort, alloc: Global, head: &str) -> String {
    let (names, definitions) = head.split_once(": ").expect(rt, "names");
    let (name, new) = names.split_once("=").expect(rt, "two names");
    let (first, second) = definitions
        .split_once(" AND ")
        .expect(rt, "two definitions");
    let first = definition_from(rt, alloc, first);
    let second = definition_from(rt, alloc, second);
    renamed(
        rt,
        alloc,
        names_of(rt, alloc, name, new).as_slice(),
        &first,
        &second,
    )
}

/// Returns whether the numbers of vertices are those that the story has, or whether the second definition is not the first renamed, as the story says.
pub(crate) fn are_renamings(rt: &impl Abort, alloc: Global, head: &str, lines: &str) -> bool {
    renaming(rt, alloc, head).as_str() == wanted(rt, alloc, lines).as_str()
}

fn matched(rt: &impl Abort, alloc: Global, head: &str) -> String {
    let (first, second) = head.split_once(" AND ").expect(rt, "two definitions");
    let first = definition_from(rt, alloc, first);
    let second = definition_from(rt, alloc, second);
    let (graph, _, partners) = load_matched(alloc, first.as_slice(), second.as_slice()).expect(
        rt, "graphs",
    );
    let mut text = String::new(alloc);
    for (w, v) in partners.iter().enumerate() {
        if *v < graph.vertices().len() {
            write!(text, "{v} = {w}\n").expect(rt, "memory");
        }
    }
    text
}

/// Returns whether the pairs of vertices that do the same on inputs that match are the pairs that the story has.
pub(crate) fn are_matchings(rt: &impl Abort, alloc: Global, head: &str, lines: &str) -> bool {
    matched(rt, alloc, head).as_str() == wanted(rt, alloc, lines).as_str()
}

fn bytes_in(rt: &impl Abort, alloc: Global, digits: &str) -> Bytes {
    read_hex(alloc, digits)
        .expect(rt, "memory")
        .expect(rt, "hexadecimal digits")
}

#[test]
fn vertices_match_whatever_their_digests_are(rt: HostRuntime) {
    are_stories(&rt, rt.alloc(), StoryKind::Matchings, MATCHINGS);
}

#[test]
fn a_definition_can_have_other_names_of_sources(rt: HostRuntime) {
    are_stories(&rt, rt.alloc(), StoryKind::Renamings, RENAMINGS);
}

fn is_only_renamed(rt: &impl Abort, alloc: Global, new: &str, renaming: &str) {
    let first = bytes_in(rt, alloc, BEFORE_RENAMING);
    let second = bytes_in(rt, alloc, renaming);
    let names = names_of(rt, alloc, "a=b", new);
    let text = renamed(rt, alloc, names.as_slice(), &first, &second);
    assert!(rt; text.as_str() == "3 and 3\n");
}

#[test]
fn adopting_only_renames_a_source(rt: HostRuntime) {
    is_only_renamed(&rt, rt.alloc(), "a-b", RENAMED_BY_ADOPT);
}

#[test]
fn the_daemon_only_renames_a_source(rt: HostRuntime) {
    is_only_renamed(&rt, rt.alloc(), "source-0", RENAMED_BY_DAEMON);
}

#[test]
fn definitions_share_the_vertices_with_one_digest(rt: HostRuntime) {
    are_stories(&rt, rt.alloc(), StoryKind::Sharing, SHARED);
}

#[test]
fn a_part_of_a_definition_has_its_last_entry(rt: HostRuntime) {
    are_stories(&rt, rt.alloc(), StoryKind::Parts, PARTS);
}

fn say_refusal<T: Drop>(rt: &impl Abort, text: &mut String, loaded: Result<T, LoadFault>) {
    match loaded {
        Ok(_) => text.push_str("loaded\n").expect(rt, "memory"),
        Err(fault) => write!(text, "{fault}\n").expect(rt, "memory"),
    }
}

// Returns the refusals of two definitions by each call that takes two; by `load_part` in the last line.
fn refusals(rt: &impl Abort, alloc: Global, first: &str, second: &str) -> String {
    let (first, second) = (first.as_bytes(), second.as_bytes());
    let names = names_of(rt, alloc, "p", "q");
    let mut text = String::new(alloc);
    say_refusal(rt, &mut text, load_both(alloc, first, second));
    say_refusal(rt, &mut text, load_matched(alloc, first, second));
    say_refusal(
        rt,
        &mut text,
        load_renamed(alloc, first, second, names.as_slice()),
    );
    say_refusal(rt, &mut text, load_part(alloc, first, second));
    text
}

// The byte `x` begins a record that has no end, so it is no definition, which 81 says. A definition without entries is refused by 83. Whether a definition has
// a part is found out before either is loaded.
#[test]
fn the_first_definition_is_refused_before_the_second(rt: HostRuntime) {
    let (rt, alloc) = (&rt, rt.alloc());
    assert!(rt; refusals(rt, alloc, "x", "").as_str() == "81 1\n81 1\n81 1\n81 1\n");
    assert!(rt; refusals(rt, alloc, "", "x").as_str() == "83\n83\n83\n81 1\n");
    assert!(rt; refusals(rt, alloc, "", "").as_str() == "83\n83\n83\n83\n");
}
